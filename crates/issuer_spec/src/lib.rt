// An issuer of start vectors without a clock (document 02, Ask 3): its structures.
#![tactic(auto)]

ghost use Rattle.std.specs.Prelude.{◌≡◌};
ghost use Rattle.issuer_spec.specs.Issuer as spec;

// How many bytes of a start vector the track's samples carry.
#[derive(Clone, Copy)]
pub enum IvSize {
    Eight,
    Sixteen,
}

// What is granted next: the counter and, in size 16, the eight bytes before it. Once the largest is covered, nothing.
// The counter of an issuer that is used up stays, as `after` has it, so it is no Option.
#[derive(Clone, Copy)]
pub struct Issuer {
    pub size: IvSize,
    pub first: [u8; 8],
    pub counter: u64,
    pub used_up: bool,
}

impl Issuer {
    // The most blocks that a grant may name; no accepted sample needs more.
    pub const MOST_BLOCKS: u64 = 1048576;

    // An issuer that grants nothing, which stands where none was started.
    pub fn exhausted() -> Issuer
        ensures { result ≡ spec.exhausted }
    {
        Issuer {
            size: IvSize::Eight,
            first: [0; 8],
            counter: 0,
            used_up: true,
        }
    }
}
