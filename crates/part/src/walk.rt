// A part of a sample, ciphered where it lies: entry by entry, and in a protected range run by run.
ghost use Rattle.std.specs.Prelude.{Bool, true, List, ◌≡◌, ◌+◌, ◌%◌, ◌<◌, length, replicate};
ghost use Rattle.aes.specs.Block.{encipher, decipher};
ghost use Rattle.scheme.specs.declared.Mode.TheVariants.{Chain};
ghost use Rattle.scheme.specs.Machine.{mode_of};
ghost use Rattle.scheme.specs.Walk.{Passes, RestartsAt, Blocks, RangeAsks, RangeSays, EntryAsks, EntrySays, SampleAsks, SampleSays};

use crate::runs;
use aes::RoundKeys;
use modes::{Direction, ModeBlock};
use scheme::{Mode, Pattern, Scheme};
use subsample_spec::Entry;
use track_spec::StartVector;

// How the ranges of a track are ciphered; a chain that starts anew takes the IV.
#[derive(Clone, Copy)]
pub(crate) struct Ciphering<'a> {
    pub keys: &'a RoundKeys,
    pub direction: Direction,
    pub scheme: Scheme,
    pub pattern: Pattern,
    pub iv: StartVector,
}

// The counter or chain block, and how many bytes of the counter block's key stream are used.
#[derive(Clone, Copy)]
pub(crate) struct Progress {
    pub block: ModeBlock,
    pub used: usize,
}

// A run of ciphered bytes; answers the counter or chain block after it.
// Whether the chain starts anew is said beside the block, as the clause has it.
fn cipher_run(how: Ciphering<'_>, restart: bool, progress: Progress, part: &mut [u8]) -> ModeBlock
    requires { (progress.used < 16) × (mode_of how.scheme ≡ Chain → Blocks progress.used (length part.old)) }
    ensures { (fs : List Bool) → RestartsAt (mode_of how.entry.scheme) restart fs (length part.old)
        → Passes (encipher how.entry.keys.now) (decipher how.entry.keys.now) how.entry.direction (mode_of how.entry.scheme) how.entry.iv.0
        (replicate (length part.old) true) fs
        progress.used progress.block.0 part.old ((progress.used + length part.old) % 16) result.0 part.new }
{
    match how.scheme.mode() {
        Mode::Counter => modes::ctr(*how.keys, progress.block, progress.used, part),
        Mode::Chain => {
            let chain = if restart {
                scheme::first_block(how.iv)
            } else {
                progress.block
            };
            modes::cbc(*how.keys, how.direction, chain, part)
        }
    }
}

// A part of a protected range of n bytes, from an offset on.
fn range_part(
    how: Ciphering<'_>,
    n: usize,
    from: usize,
    progress: Progress,
    part: &mut [u8],
) -> Progress
    requires { RangeAsks how.scheme how.pattern n from (length part.old) progress.used }
    ensures { RangeSays (encipher how.entry.keys.now) (decipher how.entry.keys.now) how.entry.direction how.entry.scheme how.entry.pattern how.entry.iv.0 n from
        progress.used progress.block.0 part.old result.used result.block.0 part.new }
{
    let mut now = progress;
    let mut at = 0;
    // A loop by place: the pattern says how long each run is, and no iterator has them.
    while at < part.len() {
        let o = from + at;
        let run = runs::run_at(how.scheme, how.pattern, n, o);
        let end = at + (run.end - o).min(part.len() - at);
        if run.ciphered {
            let restart = runs::restarts(how.scheme, o);
            now.block = cipher_run(how, restart, now, &mut part[at..end]);
            now.used = (now.used + (end - at)) % ModeBlock::SIZE;
        }
        at = end;
    }
    now
}

// A part of an entry: of its clear bytes, and of its protected range of n bytes. The two lengths
// as `EntryAsks` has them.
fn entry_part(
    how: Ciphering<'_>,
    clear: usize,
    n: usize,
    from: usize,
    progress: Progress,
    part: &mut [u8],
) -> Progress
    requires { EntryAsks how.scheme how.pattern clear n from (length part.old) progress.used }
    ensures { EntrySays (encipher how.entry.keys.now) (decipher how.entry.keys.now) how.entry.direction how.entry.scheme how.entry.pattern how.entry.iv.0 clear n from
        progress.used progress.block.0 part.old result.used result.block.0 part.new }
{
    let stay = clear.saturating_sub(from).min(part.len());
    range_part(
        how,
        n,
        from.saturating_sub(clear),
        progress,
        &mut part[stay..],
    )
}

// A part of a sample, from a position on, under its entries. Place and offset are moved along: a piece ends where the part ends, too.
pub(crate) fn sample_part(
    how: Ciphering<'_>,
    entries: &[Entry],
    from: usize,
    progress: Progress,
    part: &mut [u8],
) -> Progress
    requires { SampleAsks how.scheme how.pattern entries.now from (length part.old) progress.used }
    ensures { SampleSays (encipher how.entry.keys.now) (decipher how.entry.keys.now) how.entry.direction how.entry.scheme how.entry.pattern how.entry.iv.0
        entries.now from
        progress.block.0 part.old result.used result.block.0 part.new }
{
    let mut state = progress;
    let mut at = 0;
    let mut o = from;
    for entry in entries {
        if at == part.len() {
            break;
        }
        let a = entry.clear as usize;
        let n = entry.protected as usize;
        let size = a + n;
        if o < size {
            let end = at + (size - o).min(part.len() - at);
            state = entry_part(how, a, n, o, state, &mut part[at..end]);
            at = end;
            o = 0;
        } else {
            o -= size;
        }
    }
    state
}
