// A sample's auxiliary data: the map of its subsample entries; definitions and theorems
// (document 01, "A sample's auxiliary data").
#![tactic(auto)]

ghost use Rattle.std.specs.Prelude.{◌≡◌, length, min, take};
ghost use Rattle.subsample_spec.specs.Auxiliary as spec;

use track_spec::StartVector;

// A subsample entry: clear bytes, then protected bytes.
#[derive(Clone, Copy)]
pub struct Entry {
    pub clear: u16,
    pub protected: u32,
}

// The entries of a sample, and how many are used; unused places are 0 and 0.
// A count above the places can be said, and is refused as 9. No entries stand for one protected range, as auxiliary data has it.
#[derive(Clone, Copy)]
pub struct SubsampleMap {
    pub entries: [Entry; SubsampleMap::LIMIT],
    pub count: usize,
}

impl SubsampleMap {
    // The most entries that a map holds.
    pub const LIMIT: usize = 64;

    // The longest sample that a map describes, in bytes.
    pub const LONGEST_SAMPLE: usize = 16777216;

    // In cbc1 a protected length is a multiple of this.
    pub const BLOCK: u32 = 16;

    // The map of no entries.
    pub fn empty() -> SubsampleMap
        ensures { result ≡ spec.empty_map }
    {
        let none = Entry {
            clear: 0,
            protected: 0,
        };
        SubsampleMap {
            entries: [none; SubsampleMap::LIMIT],
            count: 0,
        }
    }

    // The entries used; of a count past the places, all.
    pub fn used(&self) -> &[Entry]
        ensures first { result.now ≡ take self.now.count self.now.entries }
        ensures size { length result.now ≡ min self.now.count spec.limit }
    {
        &self.entries[..self.count.min(SubsampleMap::LIMIT)]
    }
}

// What auxiliary data holds: the map of the entries, and the start vector.
#[derive(Clone, Copy)]
pub struct Auxiliary {
    pub map: SubsampleMap,
    pub iv: StartVector,
}
