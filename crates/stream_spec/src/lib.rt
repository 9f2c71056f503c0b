// A sample in pieces: the record of a stream; definitions and theorems (document 01, "Pieces").
#![tactic(auto)]

ghost use Rattle.std.specs.Prelude.{◌≡◌};
ghost use Rattle.stream_spec.specs.Stream as spec;

use aes::{Block, Key};
use modes_spec::{Direction, ModeBlock};
use subsample_spec::SubsampleMap;
use track_spec::{Parameters, StartVector};

// What was declared at the start of a stream. No feeding changes it.
#[derive(Clone, Copy)]
pub struct Declared {
    pub direction: Direction,
    pub parameters: Parameters,
    pub length: usize,
    pub map: SubsampleMap,
    pub key: Key,
}

// How far a stream has come: the position, the counter or chain block, and the bytes held.
// A count that breaks the rules can be said, and is refused as 13.
#[derive(Clone, Copy)]
pub struct Progress {
    pub position: usize,
    pub block: ModeBlock,
    pub held: [u8; Block::SIZE],
    pub held_count: usize,
}

// A sample on its way.
#[derive(Clone, Copy)]
pub struct Stream {
    pub declared: Declared,
    pub progress: Progress,
}

impl Progress {
    // The progress of a stream that nothing was fed to.
    pub fn begun(block: ModeBlock) -> Progress
        ensures { result ≡ spec.begun block.0 }
    {
        Progress {
            position: 0,
            block,
            held: [0; Block::SIZE],
            held_count: 0,
        }
    }
}

impl Stream {
    // The most bytes that are ever held: one less than a block.
    pub const MOST_HELD: usize = Block::SIZE - 1;

    // The record of an accepted start.
    pub fn begun(declared: Declared, iv: StartVector) -> Stream
        ensures { result ≡ spec.begun_with declared iv.0 }
    {
        Stream {
            declared,
            progress: Progress::begun(scheme::first_block(iv)),
        }
    }

    // The record of an empty unprotected cenc track, set to open, which stands where no stream was started.
    pub fn idle() -> Stream
        ensures { result ≡ spec.idle }
    {
        let declared = Declared {
            direction: Direction::Open,
            parameters: Parameters::unprotected(),
            length: 0,
            map: SubsampleMap::empty(),
            key: Key([0; Key::SIZE]),
        };
        Stream::begun(declared, StartVector([0; StartVector::SIZE]))
    }
}

// How many bytes a piece makes due, and how many are held after it.
#[derive(Clone, Copy)]
pub struct Checked {
    pub due: usize,
    pub kept: usize,
}

// What feeding a piece releases: how many bytes, and the record after it.
#[derive(Clone, Copy)]
pub struct Fed {
    pub released: usize,
    pub stream: Stream,
}
