// A sample's auxiliary data, read: the IV and the subsample map (document 01, "A sample's auxiliary data").
#![tactic(auto)]

ghost use Rattle.std.specs.Prelude.{◌≡◌, ◌≤◌, length};
ghost use Rattle.subsample_spec.specs.Auxiliary as spec;

pub use refusals::Refusal;
pub use subsample_map::check_map;
pub use subsample_spec::{Auxiliary, Entry, SubsampleMap};
use track::{Parameters, StartVector};

// The bytes of the IV that the data begins with; that of an unprotected track has none.
fn iv_length(p: Parameters) -> usize
    ensures { result ≡ spec.iv_length p }
{
    if p.protected == 1 {
        p.iv_size as usize
    } else {
        0
    }
}

// Whether something follows the IV of a protected track.
fn written(p: Parameters, auxiliary: &[u8]) -> bool
    ensures { result ≡ spec.written p auxiliary.now }
{
    p.protected == 1 && (p.iv_size as usize) < auxiliary.len()
}

// The count of entries written, 0 if none is.
#[tactic(auto, unfolding(subsample_spec::specs::Auxiliary::entry_count))]
fn entry_count(p: Parameters, auxiliary: &[u8]) -> usize
    ensures { result ≡ spec.entry_count p auxiliary.now }
{
    if written(p, auxiliary) {
        numbers::be16(auxiliary, p.iv_size as usize) as usize
    } else {
        0
    }
}

// 8: the size of the auxiliary data.
#[tactic(auto, unfolding(subsample_spec::specs::Auxiliary::bad_size))]
fn bad_size(p: Parameters, auxiliary: &[u8]) -> bool
    ensures { result ≡ spec.bad_size p auxiliary.now }
{
    if !written(p, auxiliary) {
        return auxiliary.len() != iv_length(p);
    }
    let first = p.iv_size as usize + 2;
    let count = numbers::be16(auxiliary, p.iv_size as usize) as usize;
    auxiliary.len() < first || count == 0 || auxiliary.len() != first + 6 * count
}

// The map that is written: entries of a clear length of two bytes and a protected one of four.
fn read_map(p: Parameters, count: usize, auxiliary: &[u8]) -> SubsampleMap
    requires { (count ≡ spec.entry_count p auxiliary.now) × (count ≤ spec.limit) }
    ensures { result ≡ spec.map_read p auxiliary.now }
{
    let iv = p.iv_size as usize;
    let empty = SubsampleMap::empty();
    // By itself: of what `iter_mut` writes in a field nothing is known.
    let mut entries = empty.entries;
    for (i, slot) in entries[..count].iter_mut().enumerate() {
        *slot = Entry {
            clear: numbers::be16(auxiliary, iv + 2 + 6 * i),
            protected: numbers::be32(auxiliary, iv + 4 + 6 * i),
        };
    }
    SubsampleMap { entries, count }
}

// The IV, filled out with zeros; the constant one where the track has one; zero if it is unprotected.
#[tactic(auto, unfolding(subsample_spec::specs::Auxiliary::iv_read))]
fn read_iv(p: Parameters, auxiliary: &[u8]) -> [u8; StartVector::SIZE]
    requires { spec.iv_length p ≤ length auxiliary.now }
    ensures { result ≡ spec.iv_read p auxiliary.now }
{
    if track::has_constant(p.protected, p.iv_size) {
        p.constant_iv.0
    } else {
        octets::filled(&auxiliary[..iv_length(p)])
    }
}

// Reads auxiliary data under given parameters: 7 to 12.
#[tactic(auto, unfolding(subsample_spec::specs::Auxiliary::read_under, subsample_spec::specs::Auxiliary::handed_out, subsample_spec::specs::Auxiliary::auxiliary_rows, octets::specs::Answers::answer))]
pub fn read_under(
    parameters: Parameters,
    auxiliary: &[u8],
    length: usize,
) -> Result<Auxiliary, Refusal>
    ensures { spec.as_auxiliary_read result ≡ spec.read_under parameters auxiliary.now «length» }
{
    if SubsampleMap::LONGEST_SAMPLE < length {
        return Err(Refusal::Length);
    }
    if bad_size(parameters, auxiliary) {
        return Err(Refusal::Size);
    }
    let count = entry_count(parameters, auxiliary);
    if SubsampleMap::LIMIT < count {
        return Err(Refusal::Entries);
    }
    let map = read_map(parameters, count, auxiliary);
    check_map(parameters.code, map, length)?;
    Ok(Auxiliary {
        map,
        iv: StartVector(read_iv(parameters, auxiliary)),
    })
}

// Reads auxiliary data under a scheme code and a track box: 1 to 4, then 7 to 12.
pub fn read(
    code: &[u8],
    track_box: &[u8],
    auxiliary: &[u8],
    length: usize,
) -> Result<Auxiliary, Refusal>
    ensures { spec.as_auxiliary_read result ≡ spec.read_auxiliary code.now track_box.now auxiliary.now «length» }
{
    let parameters = track::read(code, track_box)?;
    read_under(parameters, auxiliary, length)
}

// Map and IV after reading: those of an empty unprotected track where it was refused.
pub fn auxiliary_after(read: Result<Auxiliary, Refusal>) -> Auxiliary
    ensures map { result.map ≡ (spec.as_auxiliary_read read).map }
    ensures iv { result.iv ≡ (spec.as_auxiliary_read read).iv }
{
    read.unwrap_or(Auxiliary {
        map: SubsampleMap::empty(),
        iv: StartVector([0; StartVector::SIZE]),
    })
}
