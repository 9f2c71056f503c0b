// The lines `vempty`, `vcheck`, `vrecord`, `vadd` and `vdispose`: vault volumes.
use crate::line;
use crate::line::Words;
use crate::output::Output;
use volume::Found;

// The largest day, and the most days of term.
const DAYS: u64 = 4294967295;

// `vempty ROOM`, answered `NUMBER BYTES`.
pub(crate) fn empty(words: Words<'_>, lent: &mut [u8; line::BYTES], out: &mut Output) {
    let written = volume::empty(&mut lent[..words.room(1)]);
    out.answer_bytes(&written, line::part(lent, 0, volume::length_after(written)));
}

// `vcheck VOLUME`, answered `NUMBER`.
pub(crate) fn check(words: Words<'_>, out: &mut Output) {
    out.answer(&volume::check(words.bytes(1)));
}

// `vrecord VOLUME INDEX`, answered `NUMBER BYTES`.
pub(crate) fn record(words: Words<'_>, out: &mut Output) {
    let volume = words.bytes(1);
    let found = volume::record(volume, words.number(2, u64::MAX));
    let Found { offset, length } = volume::found_after(found);
    let rest = line::part(volume, offset, volume.len());
    out.answer_bytes(&found, line::part(rest, 0, length));
}

// `vadd VOLUME RECORD TERM TODAY ROOM`, answered `NUMBER BYTES`.
pub(crate) fn add(words: Words<'_>, lent: &mut [u8; line::BYTES], out: &mut Output) {
    let written = volume::add(
        words.bytes(1),
        words.bytes(2),
        words.number(3, DAYS) as u32,
        words.number(4, DAYS) as u32,
        &mut lent[..words.room(5)],
    );
    out.answer_bytes(&written, line::part(lent, 0, volume::length_after(written)));
}

// `vdispose VOLUME INDEX TODAY`, answered `NUMBER`.
pub(crate) fn dispose(words: Words<'_>, out: &mut Output) {
    let answer = volume::disposable(
        words.bytes(1),
        words.number(2, u64::MAX),
        words.number(3, DAYS) as u32,
    );
    out.answer(&answer);
}
