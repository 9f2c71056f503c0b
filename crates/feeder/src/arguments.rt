// The words that the program is started with.
ghost use Rattle.std.specs.Prelude.{◌≤◌, IfSome};

use crate::feeding;
use modes::Direction;
use std::env::FillError;
use std::rt::Env;

// The place of each, as a number, since `arg` takes one; the program's own name is at 0.
const WAY: usize = 1;

pub const SCHEME: usize = 2;

pub const BOX: usize = 3;

pub const AUX: usize = 4;

pub const KEYS: usize = 5;

const PIECE: usize = 6;

const IN: usize = 7;

pub const OUT: usize = 8;

const LENGTH: usize = 9;

// Room for a word: no name of a file is as long.
const ROOM: usize = 4096;

// A word: `arg` fills a slice and answers a length. One that is too long is cut, and still too long for a name; an absent one is as good
// as an empty one.
#[derive(Drop)]
pub struct Word {
    text: [u8; ROOM],
    length: usize,
    ghost within: { length ≤ 4096 },
}

impl Word {
    // The word at a place, empty where there is none.
    pub(crate) fn read(env: &impl Env, place: usize) -> Word {
        let mut text = [0; ROOM];
        let length = match env.arg(place, &mut text) {
            Ok(length) => length,
            Err(FillError::TooLong) => ROOM,
            Err(FillError::NotPresent) => 0,
        };
        Word { text, length }
    }

    pub(crate) fn bytes(&self) -> &[u8] {
        &self.text[..self.length]
    }

    // `-` stands for standard input or standard output.
    pub(crate) fn is_standard(&self) -> bool {
        self.bytes() == b"-".as_slice()
    }

    // A name as it is told.
    pub(crate) fn shown<'a>(&'a self, standard: &'a [u8]) -> &'a [u8] {
        if self.is_standard() {
            standard
        } else {
            self.bytes()
        }
    }
}

// Whether there is a word at a place.
fn is_there(env: &impl Env, place: usize) -> bool {
    !matches!(env.arg(place, &mut [0; 1]), Err(FillError::NotPresent))
}

// Whether a place is that of the last word.
fn is_last(env: &impl Env, place: usize) -> bool
    requires { place ≤ 9 }
{
    is_there(env, place) && !is_there(env, place + 1)
}

// `lock` or `open`. `replay` has the same match: to share three arms two programs would need a crate.
fn direction(env: &impl Env) -> Option<Direction> {
    match Word::read(env, WAY).bytes() {
        b"lock" => Some(Direction::Lock),
        b"open" => Some(Direction::Open),
        _ => None,
    }
}

// The number from 0 to the largest that a word is.
fn number(env: &impl Env, place: usize, largest: u64) -> Option<u64>
    ensures { IfSome result (λ n. n ≤ largest) }
{
    text::read_number(Word::read(env, place).bytes(), largest)
}

// What the words but the files' ask for. For standard input there is its length, which is declared.
#[derive(Drop)]
pub struct Arguments {
    pub direction: Direction,
    pub size: usize,
    pub input: Word,
    pub output: Word,
    pub length: Option<u64>,
    ghost within: { size ≤ 65536 },
}

impl Arguments {
    // None unless there are as many words as there should be, and each is what it should be.
    pub(crate) fn read(env: &impl Env) -> Option<Arguments> {
        let input = Word::read(env, IN);
        let is_standard = input.is_standard();
        if !is_last(env, if is_standard { LENGTH } else { OUT }) {
            return None;
        }
        let size = number(env, PIECE, feeding::PIECE as u64)?;
        if size == 0 {
            return None;
        }
        Some(Arguments {
            direction: direction(env)?,
            size: size as usize,
            input,
            output: Word::read(env, OUT),
            length: if is_standard {
                Some(number(env, LENGTH, u64::MAX)?)
            } else {
                None
            },
        })
    }
}
