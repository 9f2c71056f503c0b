// The transform of a part of a sample at an offset, under parameters and a map.
#![tactic(auto)]

mod runs;
mod walk;

ghost use Rattle.std.specs.Prelude.{◌≡◌, ◌+◌, ◌%◌, ◌≤◌, leb, length, take};
ghost use Rattle.aes.specs.Block.{encipher, decipher};
ghost use Rattle.scheme.specs.Layout.{mask, count as counted};
ghost use Rattle.scheme.specs.Machine.{free, feed_sample};
ghost use Rattle.scheme.specs.Part.{protected_entries, fits as fits_in, transformed};
ghost use Rattle.scheme.specs.Walk.{left, SampleAsks};
ghost use Rattle.subsample_spec.specs.Auxiliary.{longest};

use aes::RoundKeys;
use modes::{Direction, ModeBlock};
use scheme::{Pattern, Scheme};
use subsample_spec::{Entry, SubsampleMap};
use track_spec::Parameters;
use walk::{Ciphering, Progress};

// Whether `size` bytes from a position on lie below an end: positions of a sample, and not of a slice at hand.
fn within(end: usize, from: usize, size: usize) -> bool
    ensures { result ≡ leb (from + size) end }
{
    from <= end && size <= end - from
}

// Whether `size` bytes from a position of a protected sample on can be ciphered where they lie. Parameters, map and length one by one, as
// the definition takes them.
#[tactic(auto, using(scheme::proofs::Fitting::fits_is))]
fn fits(
    parameters: Parameters,
    map: SubsampleMap,
    sample_length: usize,
    from: usize,
    size: usize,
) -> bool
    requires { parameters.protected ≡ 1 }
    ensures { result ≡ fits_in parameters map sample_length from size }
{
    sample_length <= SubsampleMap::LONGEST_SAMPLE
        && within(layout::total_length(map, sample_length), from, size)
        && layout::held_at(parameters, map, sample_length, from) == 0
        && layout::held_at(parameters, map, sample_length, from + size) == 0
}

// Ciphers a part that fits.
#[tactic(auto, unfolding(scheme::specs::Part::protected_entries))]
fn cipher_part(
    how: Ciphering<'_>,
    map: SubsampleMap,
    sample_length: usize,
    from: usize,
    block: ModeBlock,
    part: &mut [u8],
) -> ModeBlock
    requires { (sample_length ≤ longest)
        × (SampleAsks how.scheme how.pattern (protected_entries map sample_length) from (length part.old)
        (counted (take from (mask how.scheme how.pattern (protected_entries map sample_length))) % 16)) }
    ensures { feed_sample (encipher how.entry.keys.now) (decipher how.entry.keys.now) how.entry.direction how.entry.scheme how.entry.pattern
        how.entry.iv.0
        (protected_entries map sample_length) (free from block.0) part.old
        ≡ left (from + length part.old) result.0 part.new }
{
    let used = layout::used_at(how.scheme, how.pattern, map, sample_length, from);
    let progress = Progress { block, used };
    let whole = [Entry {
        clear: 0,
        protected: sample_length as u32,
    }];
    let entries = if map.count == 0 { &whole } else { map.used() };
    walk::sample_part(how, entries, from, progress, part).block
}

// Ciphers the bytes of a sample of some length from a position on where they lie, with the counter or chain block before them;
// answers the block after them. Where they do not fit nothing changes.
// What a stream declares is a structure of a layer above; round keys go by value, as document 01 has it.
#[tactic(auto, using(scheme::proofs::Fitting::transformed_fits, scheme::proofs::Fitting::transformed_not, scheme::proofs::Fitting::transformed_clear))]
pub fn transform(
    keys: RoundKeys,
    direction: Direction,
    parameters: Parameters,
    map: SubsampleMap,
    sample_length: usize,
    from: usize,
    block: ModeBlock,
    part: &mut [u8],
) -> ModeBlock
    ensures { (part.new ≡ (transformed (encipher keys) (decipher keys) direction parameters map sample_length from block.0 part.old).released)
        × (result.0 ≡ (transformed (encipher keys) (decipher keys) direction parameters map sample_length from block.0 part.old).state.block) }
{
    if parameters.protected != 1 {
        return block;
    }
    if !fits(parameters, map, sample_length, from, part.len()) {
        return block;
    }
    let how = Ciphering {
        keys: &keys,
        direction,
        scheme: Scheme::of(parameters.code),
        pattern: Pattern::of(parameters),
        iv: parameters.constant_iv,
    };
    cipher_part(how, map, sample_length, from, block, part)
}
