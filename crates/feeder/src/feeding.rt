// The feeding loop: a stream record that is lent for each piece.
ghost use Rattle.std.specs.Prelude.{◌≤◌, length, IfOk, IfSome};

use crate::files;
use std::io;
use std::io::{Read, Write};
use stream::{Refusal, Stream};
use subsample::SubsampleMap;

// The largest piece, and an output with room for the bytes held before it.
pub const PIECE: usize = 65536;

const OUTPUT: usize = PIECE + Stream::MOST_HELD;

// Why feeding does not come to its end.
#[derive(Drop)]
pub enum Failure {
    Refused(Refusal),
    Unread(io::Error),
    Early,
    Unwritten(io::Error),
}

// Only an end is refused as asked for too early: the file ended before the sample.
impl From<Refusal> for Failure {
    fn from(refusal: Refusal) -> Failure {
        match refusal {
            Refusal::Early => Failure::Early,
            _ => Failure::Refused(refusal),
        }
    }
}

// Feeds a piece and writes what it releases; answers how many bytes those are.
#[tactic(auto, using(stream_spec::proofs::Feeding::released_fits))]
fn feed_piece(
    stream: &mut Stream,
    piece: &[u8],
    out: &mut [u8],
    output: &mut impl Write,
) -> Result<usize, Failure>
    ensures { IfOk result (λ written. written ≤ length out.old) }
{
    let released = in_place::feed_in_place(stream, piece, out)?;
    output
        .write_all(&out[..released])
        .map_err(Failure::Unwritten)?;
    Ok(released)
}

// Reads a piece, shorter only at the end of the file, and feeds it; or ends the stream, and then there is no more. The five loans one by
// one: a structure of them would be taken apart at once.
fn take_turn(
    stream: &mut Stream,
    piece: &mut [u8],
    out: &mut [u8],
    input: &mut impl Read,
    output: &mut impl Write,
) -> Result<Option<usize>, Failure>
    ensures { IfOk result (λ turn. IfSome turn (λ written. written ≤ length out.old)) }
{
    let count = files::fill(input, piece).map_err(Failure::Unread)?;
    if count == 0 {
        in_place::end_in_place(stream)?;
        return Ok(None);
    }
    Ok(Some(feed_piece(stream, &piece[..count], out, output)?))
}

// Feeds a file that is read from, in pieces of a size, into a file that is written to; answers how many bytes were written. The
// longest sample has that many pieces of one byte, and the turn after them ends the stream.
pub(crate) fn feed_all(
    first: Stream,
    size: usize,
    input: &mut impl Read,
    output: &mut impl Write,
) -> Result<u64, Failure>
    requires { size ≤ 65536 }
{
    let mut piece = [0u8; PIECE];
    let mut out = [0u8; OUTPUT];
    let mut stream = first;
    let mut written: u64 = 0;
    for _ in 0..=SubsampleMap::LONGEST_SAMPLE {
        match take_turn(&mut stream, &mut piece[..size], &mut out, input, output)? {
            Some(count) => written += count as u64,
            None => return Ok(written),
        }
    }
    in_place::end_in_place(&mut stream)?;
    Ok(written)
}
