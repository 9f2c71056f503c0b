// The lines `box` and `write`: track boxes.
use crate::line;
use crate::line::Words;
use crate::output::Output;
use track::{Kid, Parameters, StartVector};

// `CODE VERSION CRYPT:SKIP PROTECTED IVSIZE KID CONSTANT`.
pub(crate) fn put_parameters(p: Parameters, out: &mut Output) {
    out.hex_then(&p.code, b' ');
    out.number_then(p.version.into(), b' ');
    out.number_then(p.crypt.into(), b':');
    out.number_then(p.skip.into(), b' ');
    out.number_then(p.protected.into(), b' ');
    out.number_then(p.iv_size.into(), b' ');
    out.hex_then(&p.kid.0, b' ');
    out.hex(&p.constant_iv.0);
}

// `box CODE BOX`, answered `NUMBER PARAMS`; a refused box has the parameters of an unprotected track.
pub(crate) fn read(words: Words<'_>, out: &mut Output) {
    let read = track::read(words.bytes(1), words.bytes(2));
    out.answer_then(&read, b' ');
    put_parameters(track::parameters_after(read), out);
}

// Parameters whose last words are PROTECTED, IVSIZE, KID and CONSTANT, the words 5 to 8 of a line. The others stand in two lines at
// different places, so they are handed in.
pub(crate) fn parameters(
    words: Words<'_>,
    code: &[u8],
    version: u8,
    crypt: u8,
    skip: u8,
) -> Parameters {
    Parameters {
        code: octets::filled(code),
        version,
        crypt,
        skip,
        protected: words.byte(5),
        iv_size: words.byte(6),
        kid: Kid(octets::filled(words.bytes(7))),
        constant_iv: StartVector(octets::filled(words.bytes(8))),
    }
}

// `write CODE VERSION CRYPT SKIP PROTECTED IVSIZE KID CONSTANT ROOM`, answered `NUMBER BYTES`.
pub(crate) fn write(words: Words<'_>, lent: &mut [u8; line::BYTES], out: &mut Output) {
    let p = parameters(
        words,
        words.bytes(1),
        words.byte(2),
        words.byte(3),
        words.byte(4),
    );
    let written = track::write(p, &mut lent[..words.room(9)]);
    out.answer_bytes(&written, line::part(lent, 0, track::length_after(written)));
}
