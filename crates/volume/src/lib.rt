// The calls on a vault volume (document 02, Ask 13): records handed out and disposed of; the other calls are passed on.
#![tactic(auto)]

ghost use Rattle.std.specs.Prelude.{true, ◌≡◌, ◌+◌, ◌<◌};
ghost use Rattle.refusals.specs.Refusals.{answer_of};
ghost use Rattle.volume_spec.specs.Volume as spec;

pub use refusals::Refusal;
pub use volume_spec::{Entry, Found, Trailer};
pub use volume_valid::check;
pub use volume_write::{add, empty, length_after};

// An entry of a valid volume's index, counted from 0.
#[tactic(auto, using(volume_spec::proofs::Valid::filled_by))]
fn entry_of(volume: &[u8], index: u64) -> Entry
    requires { (spec.valid volume.now ≡ true) × (index < (spec.trailer volume.now).count) }
    ensures { result ≡ spec.entry_of volume.now index }
{
    let offset = volume_valid::read_trailer(volume).offset as usize;
    volume_valid::read_entry(volume, offset + index as usize * Entry::SIZE)
}

// Hands out a record by its index, counted from 0: 50 and 51.
#[tactic(auto, unfolding(volume_spec::specs::Volume::found, octets::specs::Answers::answer))]
pub fn record(volume: &[u8], index: u64) -> Result<Found, Refusal>
    ensures { spec.as_found result ≡ spec.found volume.now index }
{
    if !volume_valid::is_valid(volume) {
        return Err(Refusal::NotValid);
    }
    if volume_valid::read_trailer(volume).count <= index {
        return Err(Refusal::NoRecord);
    }
    let entry = entry_of(volume, index);
    Ok(Found {
        offset: entry.offset as usize,
        length: entry.length as usize,
    })
}

// Where the record lies that was asked for: at 0 with length 0 where it was refused.
pub fn found_after(found: Result<Found, Refusal>) -> Found
    ensures place { result.offset ≡ (spec.as_found found).offset }
    ensures size { result.length ≡ (spec.as_found found).length }
{
    found.unwrap_or(Found {
        offset: 0,
        length: 0,
    })
}

// Whether a record may be disposed of: 50, 51, 52 and 54.
#[tactic(auto, unfolding(volume_spec::specs::Volume::disposable, octets::specs::Answers::answer))]
pub fn disposable(volume: &[u8], index: u64, today: u32) -> Result<(), Refusal>
    ensures { answer_of result ≡ spec.disposable volume.now index today }
{
    if !volume_valid::is_valid(volume) {
        return Err(Refusal::NotValid);
    }
    let trailer = volume_valid::read_trailer(volume);
    if trailer.count <= index {
        return Err(Refusal::NoRecord);
    }
    if today < trailer.latest {
        return Err(Refusal::SetBack);
    }
    let entry = entry_of(volume, index);
    // Day stored plus term may pass the largest 32-bit number.
    if u64::from(today) < u64::from(entry.day) + u64::from(entry.term) {
        return Err(Refusal::Term);
    }
    Ok(())
}
