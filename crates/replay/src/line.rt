// The words of a line, parted by single spaces: whether they are those that its name calls for, and what they hold.
ghost use Rattle.std.specs.Prelude.{◌≤◌, ◌<◌};

use modes::Direction;
use subsample::SubsampleMap;

// The most bytes that a line lends for output.
pub const ROOM: u64 = 65536;

// The direction that a word names. `feeder` has the same match: to share three arms two programs would need a crate.
fn direction(word: &[u8]) -> Option<Direction> {
    match word {
        b"lock" => Some(Direction::Lock),
        b"open" => Some(Direction::Open),
        _ => None,
    }
}

// A letter says what a word holds. Letters, since a line's list of them is a text; an enum of the kinds would be as long again:
// `b` bytes, `f` four of them, `s` sixteen; `n` a number, `o` one of 8 bits, `h` of 16, `w` of 32, `r` of bytes lent; `d` a direction.
fn is_simple(letter: u8, word: &[u8]) -> bool {
    match letter {
        b'b' => text::is_bytes(word),
        b'f' => word.len() == 8 && text::is_bytes(word),
        b's' => word.len() == 32 && text::is_bytes(word),
        b'n' => text::read_number(word, u64::MAX).is_some(),
        b'o' => text::read_number(word, 255).is_some(),
        b'h' => text::read_number(word, 65535).is_some(),
        b'w' => text::read_number(word, 4294967295).is_some(),
        b'r' => text::read_number(word, ROOM).is_some(),
        b'd' => direction(word).is_some(),
        _ => false,
    }
}

// Two values with a byte between them.
fn is_pair(word: &[u8], parting: u8, first: u8, second: u8) -> bool {
    match word.iter().position(|b| *b == parting) {
        Some(end) => is_simple(first, &word[..end]) && is_simple(second, &word[end + 1..]),
        None => false,
    }
}

// All entries of a map, joined by commas.
fn is_map(word: &[u8]) -> bool {
    word.split(|b| *b == b',').count() == SubsampleMap::LIMIT
        && word
            .split(|b| *b == b',')
            .all(|entry| is_pair(entry, b':', b'h', b'w'))
}

// Beside these, `p` two numbers of 8 bits joined by a colon, `e` the entries of a map, `c` a call on a stream.
fn is(letter: u8, word: &[u8]) -> bool {
    match letter {
        b'p' => is_pair(word, b':', b'o', b'o'),
        b'e' => is_map(word),
        b'c' => word == b"end".as_slice() || is_pair(word, b'/', b'b', b'r'),
        _ => is_simple(letter, word),
    }
}

// Whether the words behind a line's name hold what letters say, a letter each; any number of words may follow that hold what `more`
// says, if there is such a letter.
pub(crate) fn has_words(line: &[u8], letters: &[u8], more: Option<u8>) -> bool {
    let mut words = line.split(|b| *b == b' ');
    // The name.
    words.next();
    for letter in letters {
        match words.next() {
            Some(word) if is(*letter, word) => {}
            _ => return false,
        }
    }
    // Both letters that there are, so that what a list's words hold is not looked up for each.
    match more {
        Some(b'n') => words.all(|word| is(b'n', word)),
        Some(b'c') => words.all(|word| is(b'c', word)),
        _ => words.next().is_none(),
    }
}

// As many bytes as a line can hold.
pub const BYTES: usize = 131072;

// What answering a line needs beside it: room for the bytes of its words, for what its call writes, and for the bytes of a piece. It stays
// from line to line, since filling it anew would take longer than most answers do.
#[derive(Drop)]
pub struct Room {
    pub bytes: [u8; BYTES],
    pub lent: [u8; BYTES],
    pub piece: [u8; BYTES],
}

impl Room {
    pub(crate) fn new() -> Room {
        Room {
            bytes: [0; BYTES],
            lent: [0; BYTES],
            piece: [0; BYTES],
        }
    }
}

// How many words of a line may hold bytes, its name among them and its list at the end left out.
const WORDS: usize = 17;

// A line, the bytes of its first words one after the other, and where those of each word start: slices of a buffer that is still being
// filled cannot be held beside it.
#[derive(Clone, Copy)]
pub struct Words<'a> {
    line: &'a [u8],
    bytes: &'a [u8],
    starts: [usize; WORDS + 1],
}

impl<'a> Words<'a> {
    // The words of a line, with a buffer for their bytes. A word that is no byte string has none.
    pub(crate) fn read(line: &'a [u8], bytes: &'a mut [u8; BYTES]) -> Words<'a> {
        let mut starts = [0; WORDS + 1];
        let mut end = 0;
        for (start, word) in starts[1..].iter_mut().zip(line.split(|b| *b == b' ')) {
            end = text::read_bytes(word, bytes, end);
            *start = end;
        }
        Words {
            line,
            bytes,
            starts,
        }
    }

    // The whole line.
    pub(crate) fn line(&self) -> &'a [u8] {
        self.line
    }

    // A word, counted from the name.
    pub(crate) fn word(&self, word: usize) -> &'a [u8] {
        text::word(self.line, word, b' ')
    }

    pub(crate) fn bytes(&self, word: usize) -> &'a [u8]
        requires { word < 17 }
    {
        part(self.bytes, self.starts[word], self.starts[word + 1])
    }

    pub(crate) fn number(&self, word: usize, largest: u64) -> u64
        ensures { result ≤ largest }
    {
        text::number_at(self.line, word, b' ', largest).unwrap_or(0)
    }

    // A number of 8 bits.
    pub(crate) fn byte(&self, word: usize) -> u8 {
        self.number(word, 255) as u8
    }

    pub(crate) fn length(&self, word: usize) -> usize {
        self.number(word, u64::MAX) as usize
    }

    // How many bytes are lent for output.
    pub(crate) fn room(&self, word: usize) -> usize
        ensures { result ≤ 65536 }
    {
        self.number(word, ROOM) as usize
    }

    // The direction that the second word names.
    pub(crate) fn direction(&self) -> Direction {
        direction(self.word(1)).unwrap_or(Direction::Open)
    }
}

// A part of a byte string, empty where there is no such part.
pub(crate) fn part(s: &[u8], from: usize, end: usize) -> &[u8] {
    s.get(from..end).unwrap_or(&[])
}
