// Writing a vault volume into a byte string that the caller lends (document 02, Ask 13): the empty one, and one record more.
#![tactic(auto)]

ghost use Rattle.std.specs.Prelude.{true, ◌≡◌, ◌+◌, ◌≤◌, ltb, length};
ghost use Rattle.octets.specs.Bytes.{placed};
ghost use Rattle.volume_spec.specs.Volume as spec;

use refusals::Refusal;
use volume_spec::{Entry, Trailer};

// Stores an index entry from a place on, which stands beside the output here and below, as `placed` has it.
fn store_entry(entry: Entry, out: &mut [u8], at: usize)
    requires { at + 24 ≤ length out.old }
    ensures { out.new ≡ placed out.old at (spec.entry_bytes entry) }
{
    numbers::put64(entry.offset, out, at);
    numbers::put64(entry.length, out, at + 8);
    numbers::put32(entry.day, out, at + 16);
    numbers::put32(entry.term, out, at + 20);
}

// Stores a trailer, which has the form of an entry.
fn store_trailer(trailer: Trailer, out: &mut [u8], at: usize)
    requires { at + 24 ≤ length out.old }
    ensures { out.new ≡ placed out.old at (spec.trailer_bytes trailer) }
{
    let last = Entry {
        offset: trailer.offset,
        length: trailer.count,
        day: trailer.latest,
        term: trailer.last,
    };
    store_entry(last, out, at);
}

// Writes the empty volume and answers its length: 53. Only its bytes change, and none if refused.
#[tactic(auto, using(volume_spec::proofs::Writing::length_none), unfolding(octets::specs::Answers::answer))]
pub fn empty(out: &mut [u8]) -> Result<usize, Refusal>
    ensures answer { spec.as_written result ≡ spec.written (spec.empty_rows (length out.old)) spec.none }
    ensures output { out.new ≡ spec.output_after (spec.empty_rows (length out.old)) spec.none out.old }
{
    if out.len() < Trailer::SIZE {
        return Err(Refusal::VolumeRoom);
    }
    let none = Trailer {
        offset: 0,
        count: 0,
        latest: 0,
        last: 0,
    };
    store_trailer(none, out, 0);
    Ok(Trailer::SIZE)
}

// Whether an output is shorter than a volume with one more record: a sum of three lengths, which a `usize` may not hold.
fn is_short(volume: usize, record: usize, room: usize) -> bool
    ensures { result ≡ ltb room (volume + «record» + 24) }
{
    (room as u128) < volume as u128 + record as u128 + Entry::SIZE as u128
}

// Stores a valid volume with one more record in front of an output that has room for it. Record, term and today one by one, as the
// definition `added` takes them.
#[tactic(auto, using(volume_spec::proofs::Valid::filled_by))]
fn store(volume: &[u8], record: &[u8], term: u32, today: u32, out: &mut [u8])
    requires { (spec.valid volume.now ≡ true) × (length volume.now + length «record».now + 24 ≤ length out.old) }
    ensures { out.new ≡ placed out.old 0 (spec.added volume.now «record».now term today) }
{
    let old = volume_valid::read_trailer(volume);
    let offset = old.offset as usize;
    let end = volume.len() - Trailer::SIZE;
    let next = offset + record.len();
    let entry = end + record.len();
    let trailer = entry + Entry::SIZE;
    octets::copy(&volume[..offset], out, 0);
    octets::copy(record, out, offset);
    octets::copy(&volume[offset..end], out, next);
    let stored = Entry {
        offset: old.offset,
        length: record.len() as u64,
        day: today,
        term,
    };
    let last = Trailer {
        offset: next as u64,
        count: old.count + 1,
        latest: today,
        last: 0,
    };
    store_entry(stored, out, entry);
    store_trailer(last, out, trailer);
}

// Writes the volume with one more record, whose day is today, and answers its length: 50, 52 and 53. Only its bytes change, and none if
// refused.
#[tactic(auto, unfolding(volume_spec::specs::Volume::add, volume_spec::specs::Volume::after_adding, octets::specs::Answers::answer))]
pub fn add(
    volume: &[u8],
    record: &[u8],
    term: u32,
    today: u32,
    out: &mut [u8],
) -> Result<usize, Refusal>
    ensures answer { spec.as_written result ≡ spec.add volume.now «record».now term today (length out.old) }
    ensures output { out.new ≡ spec.after_adding volume.now «record».now term today out.old }
{
    if !volume_valid::is_valid(volume) {
        return Err(Refusal::NotValid);
    }
    if today < volume_valid::read_trailer(volume).latest {
        return Err(Refusal::SetBack);
    }
    if is_short(volume.len(), record.len(), out.len()) {
        return Err(Refusal::VolumeRoom);
    }
    store(volume, record, term, today, out);
    Ok(volume.len() + record.len() + Entry::SIZE)
}

// The length of the volume written: 0 where writing was refused.
pub fn length_after(written: Result<usize, Refusal>) -> usize
    ensures { result ≡ (spec.as_written written).length }
{
    written.unwrap_or(0)
}
