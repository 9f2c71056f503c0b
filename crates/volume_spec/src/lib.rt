// The vault volume (document 02, Ask 13), records one after another, then an index, then a trailer: its structures.
#![tactic(auto)]

// An entry of the index: where a record lies, the day that it was stored and the days of its term.
#[derive(Clone, Copy)]
pub struct Entry {
    pub offset: u64,
    pub length: u64,
    pub day: u32,
    pub term: u32,
}

impl Entry {
    // The bytes of an entry.
    pub const SIZE: usize = 24;
}

// The end of a volume: the offset of the index, how many entries it has, the latest day stored, and a last field that is zero.
#[derive(Clone, Copy)]
pub struct Trailer {
    pub offset: u64,
    pub count: u64,
    pub latest: u32,
    pub last: u32,
}

impl Trailer {
    // The bytes of a trailer.
    pub const SIZE: usize = 24;
}

// Where a record lies in the volume.
#[derive(Clone, Copy)]
pub struct Found {
    pub offset: usize,
    pub length: usize,
}
