// The lines `stream` and `record`: samples in pieces.
use crate::line::Words;
use crate::output::Output;
use crate::{line, samples, track_boxes};
use aes::Key;
use modes::{Direction, ModeBlock};
use stream::{Declared, Progress, Stream};
use subsample::{Entry, SubsampleMap};

fn put_direction(direction: Direction, out: &mut Output) {
    out.text(match direction {
        Direction::Lock => b"lock",
        Direction::Open => b"open",
    });
}

// `DIRECTION [PARAMS] LENGTH [COUNT ENTRIES]`, and a space after it.
fn put_declared(declared: Declared, out: &mut Output) {
    put_direction(declared.direction, out);
    out.text(b" [");
    track_boxes::put_parameters(declared.parameters, out);
    out.text(b"] ");
    out.number(declared.length as u64);
    out.text(b" [");
    samples::put_map(declared.map, out);
    out.text(b"] ");
}

// `POSITION KEY BLOCK HELD HELDCOUNT`.
fn put_progress(key: Key, progress: Progress, out: &mut Output) {
    out.number_then(progress.position as u64, b' ');
    out.hex_then(&key.0, b' ');
    out.hex_then(&progress.block.0, b' ');
    out.hex_then(&progress.held, b' ');
    out.number(progress.held_count as u64);
}

// `DIRECTION [PARAMS] LENGTH [COUNT ENTRIES] POSITION KEY BLOCK HELD HELDCOUNT`.
fn put_record(stream: Stream, out: &mut Output) {
    put_declared(stream.declared, out);
    put_progress(stream.declared.key, stream.progress, out);
}

// `end`, answered `NUMBER`; the record stays.
fn end(stream: Stream, out: &mut Output) -> Stream {
    out.answer_then(&stream::end(stream), b' ');
    stream
}

// A piece, answered `NUMBER/BYTES`, and the record after it; a refused one releases nothing, and the record stays.
fn feed(stream: Stream, piece: &[u8], lent: &mut [u8], out: &mut Output) -> Stream {
    let answer = stream::feed(stream, piece, lent);
    out.answer_then(&answer, b'/');
    let fed = stream::fed_after(stream, answer);
    out.hex_then(line::part(lent, 0, fed.released), b' ');
    fed.stream
}

// The reply to a call, `PIECE/ROOM` or `end`, and a space after it.
fn reply(
    stream: Stream,
    call: &[u8],
    piece: &mut [u8; line::BYTES],
    lent: &mut [u8; line::BYTES],
    out: &mut Output,
) -> Stream {
    if call == b"end".as_slice() {
        return end(stream, out);
    }
    let length = text::read_bytes(text::word(call, 0, b'/'), piece, 0);
    let room = text::number_at(call, 1, b'/', line::ROOM).unwrap_or(0) as usize;
    feed(stream, line::part(piece, 0, length), &mut lent[..room], out)
}

// The reply to each word of a line from one on, then the record. The lines of issuers have such a loop too; one for both would take a
// closure over three buffers.
fn replies(
    to: &impl Print,
    start: Stream,
    line: &[u8],
    first: usize,
    lent: &mut [u8; line::BYTES],
    piece: &mut [u8; line::BYTES],
    out: &mut Output,
) {
    let mut stream = start;
    for call in line.split(|b| *b == b' ').skip(first) {
        out.make_room(to);
        stream = reply(stream, call, piece, lent, out);
    }
    put_record(stream, out);
}

// `stream DIRECTION CODE BOX AUX KEYS LENGTH CALL..`, answered by the start's answer, the replies and the record. After a refused
// start the calls go to the idle record.
pub(crate) fn started(
    to: &impl Print,
    words: Words<'_>,
    lent: &mut [u8; line::BYTES],
    piece: &mut [u8; line::BYTES],
    out: &mut Output,
) {
    let inputs = samples::inputs(words, 2);
    let started = stream::start(words.direction(), inputs, words.length(6));
    out.answer_then(&started, b' ');
    let stream = stream::stream_after(started);
    replies(to, stream, words.line(), 7, lent, piece, out);
}

// The entries of a map, `CLEAR:PROTECTED`, joined by commas.
fn map(count: usize, word: &[u8]) -> SubsampleMap {
    let mut map = SubsampleMap::empty();
    map.count = count;
    for (entry, text) in map.entries.iter_mut().zip(word.split(|b| *b == b',')) {
        *entry = Entry {
            clear: text::number_at(text, 0, b':', 65535).unwrap_or(0) as u16,
            protected: text::number_at(text, 1, b':', 4294967295).unwrap_or(0) as u32,
        };
    }
    map
}

// What was declared: the words 1 to 11 of a line, and the key, word 13.
fn declared(words: Words<'_>) -> Declared {
    let pattern = words.word(4);
    let crypt = text::number_at(pattern, 0, b':', 255).unwrap_or(0) as u8;
    let skip = text::number_at(pattern, 1, b':', 255).unwrap_or(0) as u8;
    Declared {
        direction: words.direction(),
        parameters: track_boxes::parameters(words, words.bytes(2), words.byte(3), crypt, skip),
        length: words.length(9),
        map: map(words.length(10), words.word(11)),
        key: Key(octets::filled(words.bytes(13))),
    }
}

// What moves: the words 12 and 14 to 16.
fn progress(words: Words<'_>) -> Progress {
    Progress {
        position: words.length(12),
        block: ModeBlock(octets::filled(words.bytes(14))),
        held: octets::filled(words.bytes(15)),
        held_count: words.length(16),
    }
}

// `record RECORD CALL..`, answered by the replies and the record.
pub(crate) fn given(
    to: &impl Print,
    words: Words<'_>,
    lent: &mut [u8; line::BYTES],
    piece: &mut [u8; line::BYTES],
    out: &mut Output,
) {
    let stream = Stream {
        declared: declared(words),
        progress: progress(words),
    };
    replies(to, stream, words.line(), 17, lent, piece, out);
}
