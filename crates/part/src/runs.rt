// The runs of a protected range: from an offset on, up to where the bytes are all ciphered, or none of them is.
ghost use Rattle.std.specs.Prelude.{◌≡◌, ℕ, ◌^◌, ◌<◌};
ghost use Rattle.scheme.specs.declared.Pattern.{Pattern};
ghost use Rattle.scheme.specs.declared.Scheme.TheVariants.{Cbc1, Cens, Cbcs};
ghost use Rattle.scheme.specs.Layout.{restarts as restarts_at};
ghost use Rattle.scheme.specs.Walk.{RunAt};

use modes::ModeBlock;
use scheme::{Pattern, Scheme};

// Where a run ends, and whether it is ciphered; a run of either kind has an end.
#[derive(Clone, Copy)]
pub(crate) struct Run {
    pub ciphered: bool,
    pub end: usize,
}

// Whether the chain starts anew in the block at an offset of a range.
#[tactic(auto, unfolding(scheme::specs::Layout::restarts))]
pub(crate) fn restarts(scheme: Scheme, o: usize) -> bool
    ensures { (n : ℕ) → result ≡ restarts_at scheme n o }
{
    match scheme {
        Scheme::Cenc | Scheme::Cbc1 | Scheme::Cens => false,
        Scheme::Cbcs => o / ModeBlock::SIZE == 0,
    }
}

// The run of whole blocks, or what is left after them. A range's length and an offset as two numbers, here and below, as `RunAt` has
// them; so scheme and pattern.
fn whole_run(n: usize, o: usize) -> Run
    requires { o < n }
    ensures { (pattern : Pattern) → RunAt Cbc1 pattern n o result.ciphered result.end }
{
    let whole = n / ModeBlock::SIZE * ModeBlock::SIZE;
    if o < whole {
        Run {
            ciphered: true,
            end: whole,
        }
    } else {
        Run {
            ciphered: false,
            end: n,
        }
    }
}

// The run of crypt blocks or of skip blocks, or what is left after the whole blocks; 0:0 ciphers every whole block.
fn pattern_run(pattern: Pattern, n: usize, o: usize) -> Run
    requires { (o < n) × (n < 2 ^ 32) }
    ensures { (RunAt Cens pattern n o result.ciphered result.end) × (RunAt Cbcs pattern n o result.ciphered result.end) }
{
    let crypt = pattern.crypt as usize;
    let period = crypt + pattern.skip as usize;
    if period == 0 {
        return whole_run(n, o);
    }
    let whole = n / ModeBlock::SIZE * ModeBlock::SIZE;
    if whole <= o {
        return Run {
            ciphered: false,
            end: n,
        };
    }
    let block = o / ModeBlock::SIZE;
    let nth = block % period;
    let first = block - nth;
    if nth < crypt {
        Run {
            ciphered: true,
            end: ((first + crypt) * ModeBlock::SIZE).min(whole),
        }
    } else {
        Run {
            ciphered: false,
            end: ((first + period) * ModeBlock::SIZE).min(whole),
        }
    }
}

// The run at an offset of a range of n bytes.
pub(crate) fn run_at(scheme: Scheme, pattern: Pattern, n: usize, o: usize) -> Run
    requires { (o < n) × (n < 2 ^ 32) }
    ensures { RunAt scheme pattern n o result.ciphered result.end }
{
    match scheme {
        Scheme::Cenc => Run {
            ciphered: true,
            end: n,
        },
        Scheme::Cbc1 => whole_run(n, o),
        Scheme::Cens | Scheme::Cbcs => pattern_run(pattern, n, o),
    }
}
