// Calls of the library, one a line on standard input, each answered by a line on standard output. Standard error has what failed,
// and at the end how many lines were malformed, if any were.
#![tactic(auto)]

mod calls;
mod issuers;
mod line;
mod output;
mod samples;
mod streams;
mod track_boxes;
mod volumes;

use arrayvec::ArrayVec;
use line::Room;
use output::Output;
use std::io::Read;

// The longest line, without its newline.
const LONGEST: usize = 262144;

// What has come of a line. The flag says of one that is too long that its pieces were not all held; the room stays for the next, so it
// stands beside it.
#[derive(Drop)]
struct Held {
    text: ArrayVec<u8, LONGEST>,
    too_long: bool,
}

impl Held {
    fn is_empty(&self) -> bool {
        self.text.is_empty() && !self.too_long
    }

    fn add(&mut self, piece: &[u8]) {
        if self.text.try_extend_from_slice(piece).is_err() {
            self.too_long = true;
        }
    }

    // The line, or nothing in place of one that is too long.
    fn line(&self) -> &[u8] {
        if self.too_long {
            &[]
        } else {
            self.text.as_slice()
        }
    }

    fn clear(&mut self) {
        self.text.clear();
        self.too_long = false;
    }
}

// A line on standard error. Nobody can be told where that fails.
fn say(to: &impl Eprint, text: &str) {
    let _ = eprintln!(to; "replay: {text}");
}

// The line that is coming, room for answering it, the answers that are still to be written, and how many lines were malformed.
#[derive(Drop)]
struct Replay {
    held: Held,
    room: Room,
    out: Output,
    malformed: u64,
}

impl Replay {
    fn new() -> Replay {
        Replay {
            held: Held {
                text: ArrayVec::new(),
                too_long: false,
            },
            room: Room::new(),
            out: Output::new(),
            malformed: 0,
        }
    }

    // Answers the line held; an empty line by an empty line.
    fn answer(&mut self, to: &impl Print) {
        self.out.make_room(to);
        if !self.held.is_empty() {
            if !calls::answer(to, self.held.line(), &mut self.room, &mut self.out) {
                self.malformed = self.malformed.saturating_add(1);
            }
            self.held.clear();
        }
        self.out.byte(b'\n');
    }

    // Answers the lines that end in a piece of the input, and holds what follows them.
    fn take(&mut self, to: &impl Print, piece: &[u8]) {
        for part in piece.split_inclusive(|b| *b == b'\n') {
            match part.strip_suffix(b"\n") {
                Some(end) => {
                    self.held.add(end);
                    self.answer(to);
                }
                None => self.held.add(part),
            }
        }
        self.out.flush(to);
    }

    // Reads the input once; answers whether there may be more: a failure was told, so a bool is enough. A line that is cut off by a
    // failure is not answered.
    fn take_turn(&mut self, rt: &(impl Print + Eprint), input: &mut impl Read) -> bool {
        let mut piece = [0u8; 65536];
        match input.read(&mut piece) {
            Ok(0) => false,
            Ok(count) => {
                self.take(rt, &piece[..count]);
                !self.out.has_failed()
            }
            Err(_) => {
                say(rt, "cannot read standard input");
                self.held.clear();
                false
            }
        }
    }

    // Answers a last line that has no newline.
    fn finish(&mut self, to: &impl Print) {
        if !self.held.is_empty() {
            self.answer(to);
            self.out.flush(to);
        }
    }

    // Says that writing failed, or how many lines were malformed.
    fn report(&self, to: &impl Eprint) {
        let malformed = self.malformed;
        if self.out.has_failed() {
            say(to, "cannot write to standard output");
        } else if 0 < malformed {
            let _ = eprintln!(to; "replay: {malformed} lines malformed");
        }
    }
}

fn main(rt: HostRuntime) {
    let mut input = rt.stdin();
    let mut replay = Replay::new();
    // Nothing says that the input ends, so the loop has an end of its own, which no input reaches.
    for _ in 0..u64::MAX {
        if !replay.take_turn(&rt, &mut input) {
            break;
        }
    }
    replay.finish(&rt);
    replay.report(&rt);
}
