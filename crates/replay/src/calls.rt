// The lines: the name of each, the letters of its words, and the function that answers it.
use crate::line::{self, Room, Words};
use crate::output::Output;
use crate::{issuers, samples, streams, track_boxes, volumes};
use modes::Direction;

// What a line asks for.
#[derive(Clone, Copy)]
enum Call {
    Box,
    Write,
    Auxiliary,
    Lock,
    Open,
    Stream,
    Record,
    Issuer,
    EmptyVolume,
    CheckVolume,
    VolumeRecord,
    AddRecord,
    DisposeRecord,
}

impl Call {
    fn named(name: &[u8]) -> Option<Call> {
        Some(match name {
            b"box" => Call::Box,
            b"write" => Call::Write,
            b"aux" => Call::Auxiliary,
            b"lock" => Call::Lock,
            b"open" => Call::Open,
            b"stream" => Call::Stream,
            b"record" => Call::Record,
            b"issuer" => Call::Issuer,
            b"vempty" => Call::EmptyVolume,
            b"vcheck" => Call::CheckVolume,
            b"vrecord" => Call::VolumeRecord,
            b"vadd" => Call::AddRecord,
            b"vdispose" => Call::DisposeRecord,
            _ => return None,
        })
    }

    // The letters of its words, and the letter of those that may follow.
    fn letters(self) -> (&'static [u8], Option<u8>) {
        match self {
            Call::Box => (b"bb", None),
            Call::Write => (b"fooooossr", None),
            Call::Auxiliary => (b"bbnb", None),
            Call::Lock | Call::Open => (b"bbbbb", None),
            Call::Stream => (b"dbbbbn", Some(b'c')),
            Call::Record => (b"dfopoossnnensssn", Some(b'c')),
            Call::Issuer => (b"b", Some(b'n')),
            Call::EmptyVolume => (b"r", None),
            Call::CheckVolume => (b"b", None),
            Call::VolumeRecord => (b"bn", None),
            Call::AddRecord => (b"bbwwr", None),
            Call::DisposeRecord => (b"bnw", None),
        }
    }

    // The call of a line, none if it is malformed.
    fn read(line: &[u8]) -> Option<Call> {
        let call = Call::named(text::word(line, 0, b' '))?;
        let (letters, more) = call.letters();
        line::has_words(line, letters, more).then_some(call)
    }

    // Answers it. What it writes goes to `lent`. The five are handed on one by one: few calls take them all.
    fn run(
        self,
        to: &impl Print,
        words: Words<'_>,
        lent: &mut [u8; line::BYTES],
        piece: &mut [u8; line::BYTES],
        out: &mut Output,
    ) {
        match self {
            Call::Box => track_boxes::read(words, out),
            Call::Write => track_boxes::write(words, lent, out),
            Call::Auxiliary => samples::auxiliary(words, out),
            Call::Lock => samples::whole(Direction::Lock, words, lent, out),
            Call::Open => samples::whole(Direction::Open, words, lent, out),
            Call::Stream => streams::started(to, words, lent, piece, out),
            Call::Record => streams::given(to, words, lent, piece, out),
            Call::Issuer => issuers::grants(to, words, out),
            Call::EmptyVolume => volumes::empty(words, lent, out),
            Call::CheckVolume => volumes::check(words, out),
            Call::VolumeRecord => volumes::record(words, out),
            Call::AddRecord => volumes::add(words, lent, out),
            Call::DisposeRecord => volumes::dispose(words, out),
        }
    }
}

// Answers a line, and tells whether it is a call; it is malformed if not, and its answer says so, so a bool is enough.
pub(crate) fn answer(to: &impl Print, line: &[u8], room: &mut Room, out: &mut Output) -> bool {
    let Some(call) = Call::read(line) else {
        out.text(b"malformed");
        return false;
    };
    call.run(
        to,
        Words::read(line, &mut room.bytes),
        &mut room.lent,
        &mut room.piece,
        out,
    );
    true
}
