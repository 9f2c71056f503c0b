// Reading a vault volume's index entries and trailer, and checking it (document 02, Ask 13).
#![tactic(auto)]

ghost use Rattle.std.specs.Prelude.{◌≡◌, map};
ghost use Rattle.refusals.specs.Refusals.{answer_of};
ghost use Rattle.volume_spec.specs.Volume as spec;

use refusals::Refusal;
use volume_spec::{Entry, Trailer};

// The index entry at a place, bytes past the end counted as zero.
pub fn read_entry(volume: &[u8], at: usize) -> Entry
    ensures { result ≡ spec.entry_at volume.now at }
{
    let entry = &volume[at.min(volume.len())..];
    Entry {
        offset: numbers::be64(entry, 0),
        length: numbers::be64(entry, 8),
        day: numbers::be32(entry, 16),
        term: numbers::be32(entry, 20),
    }
}

// The trailer, which has the form of an entry, bytes past the end counted as zero where there is no room for one.
pub fn read_trailer(volume: &[u8]) -> Trailer
    ensures { result ≡ spec.trailer volume.now }
{
    let last = read_entry(volume, volume.len().saturating_sub(Trailer::SIZE));
    Trailer {
        offset: last.offset,
        count: last.length,
        latest: last.day,
        last: last.term,
    }
}

// Whether index and trailer fill what the records leave of a volume.
fn fills(size: usize, offset: u64, count: u64) -> bool
    ensures { result ≡ spec.fills size offset count }
{
    u128::from(offset) + u128::from(count) * Entry::SIZE as u128 + Trailer::SIZE as u128
        == size as u128
}

// Whether each record begins where the one before ended, and the last ends at the index, whose offset is given.
fn adjoins(index: &[[u8; Entry::SIZE]], to: u64) -> bool
    ensures { result ≡ spec.adjoining 0 (map (λ e. spec.entry_at e 0) index.now) to }
{
    let mut end = 0;
    for bytes in index {
        let entry = read_entry(bytes, 0);
        if entry.offset != end || to - end < entry.length {
            return false;
        }
        end += entry.length;
    }
    end == to
}

// The largest day stored, 0 for none.
fn largest_day(index: &[[u8; Entry::SIZE]]) -> u32
    ensures { result ≡ spec.largest_day (map (λ e. spec.entry_at e 0) index.now) }
{
    index
        .iter()
        .map(|bytes| read_entry(bytes, 0).day)
        .max()
        .unwrap_or(0)
}

// Whether a volume is valid.
pub fn is_valid(volume: &[u8]) -> bool
    ensures { result ≡ spec.valid volume.now }
{
    let trailer = read_trailer(volume);
    if !fills(volume.len(), trailer.offset, trailer.count) {
        return false;
    }
    let (index, _) = volume[trailer.offset as usize..volume.len() - Trailer::SIZE].as_chunks();
    adjoins(index, trailer.offset) && trailer.last == 0 && trailer.latest == largest_day(index)
}

// Checks a volume: 50.
#[tactic(auto, unfolding(volume_spec::specs::Volume::check, octets::specs::Answers::answer))]
pub fn check(volume: &[u8]) -> Result<(), Refusal>
    ensures { answer_of result ≡ spec.check volume.now }
{
    if is_valid(volume) {
        Ok(())
    } else {
        Err(Refusal::NotValid)
    }
}
