// Lines that tell how it went: on standard output, unless that takes the sample, then on standard error. A line that cannot be
// written is lost, but for the last, `done N`.
use crate::arguments;
use crate::arguments::Word;
use std::fmt::{Display, Formatter};
use std::io::Write;
use std::rt::Env;
use std::{fmt, io};
use stream::Refusal;

// A name as it is told: what is no UTF-8 in it as U+FFFD.
#[derive(Clone, Copy)]
struct Name<'a>(&'a [u8]);

impl Display for Name<'_> {
    fn fmt<W: fmt::Write>(&self, f: &mut Formatter<W>) -> fmt::Result {
        for chunk in self.0.utf8_chunks() {
            f.write_str(chunk.valid())?;
            if !chunk.invalid().is_empty() {
                f.write_str("\u{fffd}")?;
            }
        }
        Ok(())
    }
}

// A failure's reason, in the system's words alone: without the number that std puts after them. `write!` into a slice tells no length, so
// a zero byte ends it.
fn reason<'a>(error: io::Error, text: &'a mut [u8; 256]) -> &'a str {
    let mut rest = &mut text[..];
    let _ = write!(rest, "{error}\0");
    let words = str::from_utf8(text::word(text, 0, 0)).unwrap_or("");
    match words.split_once(" (os error ") {
        Some((reason, _)) => reason,
        None => words,
    }
}

// A failure's reason, on standard error.
fn fail(to: &impl Eprint, name: &[u8], error: io::Error) {
    let name = Name(name);
    let mut text = [0u8; 256];
    let reason = reason(error, &mut text);
    let _ = eprintln!(to; "{name}: {reason}");
}

// Whether standard output takes the sample.
fn is_output_taken(env: &impl Env) -> bool {
    Word::read(env, arguments::OUT).is_standard()
}

fn line<R: Env + Print + Eprint, T: Display + Drop>(rt: &R, text: T) -> io::Result<()> {
    if is_output_taken(rt) {
        rt.eprintln(text)
    } else {
        rt.println(text)
    }
}

pub(crate) fn usage<R: Env + Print + Eprint>(rt: &R) {
    let _ = line(
        rt,
        "usage: feeder lock|open SCHEME BOX AUX KEYS PIECE IN OUT [LENGTH], with a PIECE of 1 to 65536 bytes; - is standard output, or standard input of LENGTH bytes",
    );
}

// `done N`; answers whether it was written. What failed was told, so a bool is enough.
pub(crate) fn done<R: Env + Print + Eprint>(rt: &R, written: u64) -> bool {
    match line(rt, format_args!("done {written}")) {
        Ok(()) => true,
        Err(error) => {
            fail(rt, b"standard output", error);
            false
        }
    }
}

// `refused NUMBER: WORDS`.
pub(crate) fn refused<R: Env + Print + Eprint>(rt: &R, refusal: Refusal) {
    let number = refusal.number();
    let _ = line(rt, format_args!("refused {number}: {refusal}"));
}

// `cannot VERB NAME`, for a call that failed; its reason goes to standard error.
pub(crate) fn cannot<R: Env + Print + Eprint>(rt: &R, verb: &str, name: &[u8], error: io::Error) {
    fail(rt, name, error);
    let name = Name(name);
    let _ = line(rt, format_args!("cannot {verb} {name}"));
}

// `NAME WHAT`.
pub(crate) fn about<R: Env + Print + Eprint>(rt: &R, name: &[u8], what: &str) {
    let name = Name(name);
    let _ = line(rt, format_args!("{name} {what}"));
}
