// Locks or opens a sample, from a file into a new file, in pieces:
//
//     feeder lock|open SCHEME BOX AUX KEYS PIECE IN OUT [LENGTH]
//
// A line on standard output tells how it went, and the exit status is 0 whatever it says; standard error has the system's
// reason for a failure. After `done N` the N bytes of OUT have reached its device; after any other line OUT is as
// it was before. IN is `-` for standard input, whose length is then declared by LENGTH, and OUT is `-` for standard output; the line is
// then on standard error, and what was written before a failure has gone out.
#![tactic(auto)]

mod arguments;
mod feeding;
mod files;
mod tell;

use arguments::{Arguments, Word};
use feeding::Failure;
use modes::Direction;
use std::io;
use std::io::{Read, Write};
use std::rt::{Env, Files, Runtime};
use stream::{Inputs, Stream};

// Starts a stream by the scheme code and the contents of three files. None if they were not read or its start was refused.
fn begin<R: Files + Env + Print + Eprint>(
    rt: &R,
    direction: Direction,
    length: usize,
) -> Option<Stream> {
    let mut track_box = [0; files::LONGEST + 1];
    let mut auxiliary = [0; files::LONGEST + 1];
    let mut key_record = [0; files::LONGEST + 1];
    let scheme = Word::read(rt, arguments::SCHEME);
    let inputs = Inputs {
        code: scheme.bytes(),
        track_box: files::contents(rt, arguments::BOX, &mut track_box)?,
        auxiliary: files::contents(rt, arguments::AUX, &mut auxiliary)?,
        key_record: files::contents(rt, arguments::KEYS, &mut key_record)?,
    };
    match stream::start(direction, inputs, length) {
        Ok(stream) => Some(stream),
        Err(refusal) => {
            tell::refused(rt, refusal);
            None
        }
    }
}

// Tells why feeding did not come to its end.
fn tell_failure<R: Env + Print + Eprint>(rt: &R, arguments: &Arguments, failure: Failure) {
    let input = arguments.input.shown(b"standard input");
    match failure {
        Failure::Refused(refusal) => tell::refused(rt, refusal),
        Failure::Unread(error) => tell::cannot(rt, "read", input, error),
        Failure::Early => tell::about(rt, input, "ended early"),
        Failure::Unwritten(error) => {
            tell::cannot(
                rt,
                "write",
                arguments.output.shown(b"standard output"),
                error,
            );
        }
    }
}

// Feeds a stream, and answers how many bytes were written if it came to its end.
fn feed_through<R: Env + Print + Eprint>(
    rt: &R,
    arguments: &Arguments,
    stream: Stream,
    input: &mut impl Read,
    output: &mut impl Write,
) -> Option<u64> {
    match feeding::feed_all(stream, arguments.size, input, output) {
        Ok(written) => Some(written),
        Err(failure) => {
            tell_failure(rt, arguments, failure);
            None
        }
    }
}

// Feeds a stream into a new file. Answers whether all of it was written, has reached its device and was told; what failed was told,
// so a bool is enough.
fn feed_file<R: Files + Env + Print + Eprint>(
    rt: &R,
    arguments: &Arguments,
    stream: Stream,
    input: &mut impl Read,
    mut output: R::File,
) -> bool {
    match feed_through(rt, arguments, stream, input, &mut output) {
        Some(written) => {
            files::finish(rt, output, arguments.output.bytes()) && tell::done(rt, written)
        }
        None => false,
    }
}

// Feeds a stream into a new file, which is removed unless all of it was written and told, or to standard output, where what was
// written has gone out.
fn feed_into<R: Files + Env + Print + Eprint>(
    rt: &R,
    arguments: &Arguments,
    stream: Stream,
    input: &mut impl Read,
) {
    if arguments.output.is_standard() {
        if let Some(written) = feed_through(rt, arguments, stream, input, &mut io::writer(rt)) {
            tell::done(rt, written);
        }
        return;
    }
    let name = arguments.output.bytes();
    match files::create(rt, name) {
        Ok(file) => {
            if !feed_file(rt, arguments, stream, input, file) {
                files::remove(rt, name);
            }
        }
        Err(error) => tell::cannot(rt, "create", name, error),
    }
}

// Feeds a sample of a length.
fn feed_from<R: Files + Env + Print + Eprint>(
    rt: &R,
    arguments: &Arguments,
    input: &mut impl Read,
    length: usize,
) {
    if let Some(stream) = begin(rt, arguments.direction, length) {
        feed_into(rt, arguments, stream, input);
    }
}

// Feeds from a file, or from standard input with its declared length.
fn feed<R: Runtime>(rt: &R, arguments: &Arguments) {
    if let Some(length) = arguments.length {
        feed_from(rt, arguments, &mut rt.reader(), length as usize);
        return;
    }
    let name = arguments.input.bytes();
    match files::open_sample(rt, name) {
        Ok((mut input, length)) => feed_from(rt, arguments, &mut input, length),
        Err(error) => tell::cannot(rt, "read", name, error),
    }
}

fn main(rt: HostRuntime) {
    match Arguments::read(&rt) {
        Some(arguments) => feed(&rt, &arguments),
        None => tell::usage(&rt),
    }
}
