// The map of a sample's entries, checked (document 01, "A sample's auxiliary data"): 9 to 12.
#![tactic(auto)]

ghost use Rattle.std.specs.Prelude.{not, ◌&&◌, ◌≡◌, ◌≤◌, ◌+◌, ◌%◌, eqb, ltb, length, take, sum_by};
ghost use Rattle.std.specs.List.{list_any};
ghost use Rattle.octets.specs.Answers.{answer};
ghost use Rattle.octets.specs.Bytes.{same};
ghost use Rattle.refusals.specs.Refusals.{answer_of};
ghost use Rattle.track_spec.specs.Track.{cbc1};
ghost use Rattle.subsample_spec.specs.Auxiliary as spec;

use refusals::Refusal;
use subsample_spec::{Entry, SubsampleMap};

// Whether some entry is 0 and 0.
fn some_empty(entries: &[Entry]) -> bool
    ensures { result ≡ list_any (λ e. eqb e.clear 0 && eqb e.protected 0) entries.now }
{
    entries.iter().any(|e| e.clear == 0 && e.protected == 0)
}

// Whether some protected length isn't a multiple of 16.
fn some_ragged(entries: &[Entry]) -> bool
    ensures { result ≡ list_any (λ e. not (eqb (e.protected % 16) 0)) entries.now }
{
    entries
        .iter()
        .any(|e| e.protected % SubsampleMap::BLOCK != 0)
}

// The lengths of some entries together.
fn sum(entries: &[Entry]) -> usize
    requires { length entries.now ≤ spec.limit }
    ensures { result ≡ sum_by (λ e. e.clear + e.protected) entries.now }
{
    entries
        .iter()
        .map(|e| e.clear as usize + e.protected as usize)
        .sum()
}

// The lengths of a map's used entries together.
pub fn total(map: &SubsampleMap) -> usize
    ensures { result ≡ sum_by (λ e. e.clear + e.protected) (take map.now.count map.now.entries) }
{
    sum(map.used())
}

// 10: an entry 0 and 0 in a sample that isn't empty.
fn bad_entry(map: &SubsampleMap, length: usize) -> bool
    requires { map.now.count ≤ spec.limit }
    ensures { result ≡ not (eqb «length» 0) && spec.some (spec.empty_entry map.now) map.now.count }
{
    length != 0 && some_empty(map.used())
}

// 11: lengths that don't add up.
fn bad_sum(map: SubsampleMap, length: usize) -> bool
    requires { map.count ≤ spec.limit }
    ensures { result ≡ ltb 0 map.count && not (eqb (spec.sum (spec.entry_length map) map.count) «length») }
{
    0 < map.count && total(&map) != length
}

// 12: a remainder in cbc1.
fn bad_remainder(code: [u8; 4], map: &SubsampleMap) -> bool
    requires { map.now.count ≤ spec.limit }
    ensures { result ≡ same code cbc1 && spec.some (spec.ragged_entry map.now) map.now.count }
{
    code == *b"cbc1" && some_ragged(map.used())
}

// Checks a map under a scheme code, for a sample of some length: 9 to 12.
#[tactic(auto, unfolding(subsample_spec::specs::Auxiliary::map_rows, octets::specs::Answers::answer))]
pub fn check_map(code: [u8; 4], map: SubsampleMap, length: usize) -> Result<(), Refusal>
    ensures { answer_of result ≡ answer (spec.map_rows code map «length») }
{
    if SubsampleMap::LIMIT < map.count {
        return Err(Refusal::Entries);
    }
    if bad_entry(&map, length) {
        return Err(Refusal::EmptyEntry);
    }
    if bad_sum(map, length) {
        return Err(Refusal::Sum);
    }
    if bad_remainder(code, &map) {
        return Err(Refusal::Remainder);
    }
    Ok(())
}
