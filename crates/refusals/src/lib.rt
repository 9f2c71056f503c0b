// Why a call is refused: the table of the numbers that calls answer (documents 01 and 02), as an error.
#![tactic(auto)]

ghost use Rattle.std.specs.Prelude.{◌≡◌, Some};
ghost use Rattle.refusals.specs.Refusals as spec;

use std::error::Error;
use std::fmt;
use std::fmt::{Display, Formatter};

// A refusal, with its number.
#[derive(Clone, Copy, Debug, PartialEq, Eq)]
pub enum Refusal {
    Scheme = 1,
    Frame = 2,
    Version = 3,
    Fields = 4,
    KeyRecord = 5,
    Kid = 6,
    Length = 7,
    Size = 8,
    Entries = 9,
    EmptyEntry = 10,
    Sum = 11,
    Remainder = 12,
    Record = 13,
    Past = 14,
    Output = 15,
    Early = 16,
    Room = 17,
    Count = 19,
    UsedUp = 20,
    Start = 31,
    NotValid = 50,
    NoRecord = 51,
    SetBack = 52,
    VolumeRoom = 53,
    Term = 54,
}

impl Refusal {
    // Its number; 0 is no refusal.
    pub fn number(self) -> u8
        ensures { result ≡ spec.refusal_number self }
    {
        self as u8
    }

    // When it is given, in words.
    fn words(self) -> &'static str
        ensures { result.now ≡ spec.refusal_words self }
    {
        match self {
            Refusal::Scheme => "the scheme code isn't four bytes naming one of the four",
            Refusal::Frame =>
                "the box has under 32 bytes, or its size field isn't its length, or its type isn't tenc",
            Refusal::Version =>
                "version above 1, flags or zero byte not zero, or a pattern in version 0",
            Refusal::Fields =>
                "the fields aren't allowed, or the box is longer or shorter than they call for",
            Refusal::KeyRecord => "key record not 32 bytes (KID, then key)",
            Refusal::Kid => "the key record's KID isn't the track's",
            Refusal::Length => "sample over 16,777,216 bytes",
            Refusal::Size => "auxiliary data of the wrong size, or an entry count of 0",
            Refusal::Entries => "more than 64 entries",
            Refusal::EmptyEntry => "an entry 0 and 0 in a sample that isn't empty",
            Refusal::Sum => "the entries' lengths don't add up to the sample's",
            Refusal::Remainder => "cbc1 entry whose protected length isn't a multiple of 16",
            Refusal::Record => "stream record breaks its rules",
            Refusal::Past => "piece runs past the declared length",
            Refusal::Output => "output shorter than the bytes due",
            Refusal::Early => "end asked for too early",
            Refusal::Room => "output too short for the box being written",
            Refusal::Count => "the block count of a grant is below 1 or above 1,048,576",
            Refusal::UsedUp =>
                "the grant's counter, or in size 16 its last block's, would pass the largest 64-bit number, or the issuer is used up",
            Refusal::Start => "the start of an issuer has neither 8 nor 16 bytes",
            Refusal::NotValid => "the volume isn't valid",
            Refusal::NoRecord => "the volume has no such record",
            Refusal::SetBack => "today is before the volume's latest day",
            Refusal::VolumeRoom => "the output is shorter than the volume being written",
            Refusal::Term =>
                "the record's day stored plus its term, as a plain sum, is above today",
        }
    }
}

// What a call answers, as a number: 0, done, or that of the refusal.
pub fn number<T>(answer: &Result<T, Refusal>) -> u8
    ensures { result ≡ spec.answer_of answer.now }
{
    match answer {
        Ok(_) => 0,
        Err(refusal) => refusal.number(),
    }
}

impl Display for Refusal {
    ghost output = { λ r. Some (spec.refusal_words r) };

    fn fmt<W: fmt::Write>(&self, f: &mut Formatter<W>) -> fmt::Result {
        f.write_str(self.words())
    }
}

impl Error for Refusal {}
