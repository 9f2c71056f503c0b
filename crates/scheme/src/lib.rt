// The four schemes: which bytes of a sample each ciphers, and how (document 01, "Which bytes are ciphered, and how"); definitions
// and theorems.
#![tactic(auto)]

ghost use Rattle.std.specs.Prelude.{◌≡◌};
ghost use Rattle.scheme.specs.Layout as spec;
ghost use Rattle.scheme.specs.Machine.{mode_of};

use modes_spec::ModeBlock;
use track_spec::{Parameters, StartVector};

// The counter or chain block that a sample, or in cbcs a range, begins with: the start vector's bytes.
pub fn first_block(iv: StartVector) -> ModeBlock
    ensures { result.0 ≡ iv.0 }
{
    ModeBlock(iv.0)
}

#[derive(Clone, Copy)]
pub enum Scheme {
    Cenc,
    Cbc1,
    Cens,
    Cbcs,
}

// The two modes of operation.
#[derive(Clone, Copy)]
pub enum Mode {
    Counter,
    Chain,
}

// The pattern of a track, in blocks: so many are ciphered, then so many are not, and so on. 0:0 is none, as a box writes it.
#[derive(Clone, Copy)]
pub struct Pattern {
    pub crypt: u8,
    pub skip: u8,
}

impl Scheme {
    // The scheme that a code names; cenc for a code that names none.
    // By `==`: the arms of a `match` on byte strings would tell a proof the length alone.
    pub fn of(code: [u8; 4]) -> Scheme
        ensures { result ≡ spec.scheme_of code }
    {
        if &code == b"cbc1" {
            Scheme::Cbc1
        } else if &code == b"cens" {
            Scheme::Cens
        } else if &code == b"cbcs" {
            Scheme::Cbcs
        } else {
            Scheme::Cenc
        }
    }

    // The mode of operation that the scheme uses.
    #[tactic(auto, unfolding(crate::specs::Machine::mode_of))]
    pub fn mode(self) -> Mode
        ensures { result ≡ mode_of self }
    {
        match self {
            Scheme::Cenc | Scheme::Cens => Mode::Counter,
            Scheme::Cbc1 | Scheme::Cbcs => Mode::Chain,
        }
    }
}

impl Pattern {
    // The pattern of a track, as its parameters have it.
    #[tactic(auto, unfolding(crate::specs::Layout::pattern_of))]
    pub fn of(parameters: Parameters) -> Pattern
        ensures { result ≡ spec.pattern_of parameters }
    {
        Pattern {
            crypt: parameters.crypt,
            skip: parameters.skip,
        }
    }
}
