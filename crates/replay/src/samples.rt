// The lines `aux`, `lock` and `open`: auxiliary data and whole samples.
ghost use Rattle.std.specs.Prelude.{◌<◌};

use crate::line;
use crate::line::Words;
use crate::output::Output;
use modes::Direction;
use refusals::Refusal;
use sample::Inputs;
use subsample::{Auxiliary, SubsampleMap};

// The entries that count, `CLEAR:PROTECTED`, joined by commas.
fn put_entries(map: SubsampleMap, out: &mut Output) {
    for (i, entry) in map.used().iter().enumerate() {
        if 0 < i {
            out.byte(b',');
        }
        out.number_then(entry.clear.into(), b':');
        out.number(entry.protected.into());
    }
}

// `COUNT ENTRIES`.
pub(crate) fn put_map(map: SubsampleMap, out: &mut Output) {
    out.number_then(map.count as u64, b' ');
    if map.count == 0 {
        out.byte(b'-');
    }
    put_entries(map, out);
}

// `aux CODE BOX LENGTH AUX`, answered `NUMBER COUNT ENTRIES IV`; what is refused has no entries and an IV of zeros.
pub(crate) fn auxiliary(words: Words<'_>, out: &mut Output) {
    let read = subsample::read(
        words.bytes(1),
        words.bytes(2),
        words.bytes(4),
        words.length(3),
    );
    out.answer_then(&read, b' ');
    let Auxiliary { map, iv } = subsample::auxiliary_after(read);
    put_map(map, out);
    out.byte(b' ');
    out.hex(&iv.0);
}

// `lock CODE BOX AUX KEYS SAMPLE` and `open ..`, answered `NUMBER BYTES`.
pub(crate) fn whole(
    direction: Direction,
    words: Words<'_>,
    lent: &mut [u8; line::BYTES],
    out: &mut Output,
) {
    let end = text::read_bytes(words.word(5), lent, 0);
    let sample = &mut lent[..end];
    let answer = transform(direction, inputs(words, 1), sample);
    out.answer_bytes(&answer, sample);
}

// The inputs of a sample: CODE, BOX, AUX and KEYS, the words from a place on.
pub(crate) fn inputs(words: Words<'_>, first: usize) -> Inputs<'_>
    requires { first < 14 }
{
    Inputs {
        code: words.bytes(first),
        track_box: words.bytes(first + 1),
        auxiliary: words.bytes(first + 2),
        key_record: words.bytes(first + 3),
    }
}

// By direction: the library has a call for each.
fn transform(direction: Direction, inputs: Inputs, sample: &mut [u8]) -> Result<(), Refusal> {
    match direction {
        Direction::Lock => sample::lock(inputs, sample),
        Direction::Open => sample::open(inputs, sample),
    }
}
