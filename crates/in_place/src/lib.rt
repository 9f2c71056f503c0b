// A stream whose record is changed where it lies: thin forms over a record that is lent.
// Document 01 asks for both forms.
#![tactic(auto)]

ghost use Rattle.std.specs.Prelude.{◌≡◌, length};
ghost use Rattle.stream_spec.specs.Stream as spec;

use stream::{Refusal, Stream};

// Feeds a piece over a record that is changed where it lies, and answers how many bytes were released.
pub fn feed_in_place(stream: &mut Stream, piece: &[u8], out: &mut [u8]) -> Result<usize, Refusal>
    ensures answer { spec.as_fed_in_place result stream.new ≡ spec.feed stream.old piece.now (length out.old) }
    ensures output { out.new ≡ spec.output_after stream.old piece.now out.old }
{
    let fed = stream::feed(*stream, piece, out)?;
    *stream = fed.stream;
    Ok(fed.released)
}

// Ends a stream over a lent record, which stays as it is.
pub fn end_in_place(stream: &mut Stream) -> Result<(), Refusal>
    ensures answer { spec.as_ended result ≡ spec.end stream.old }
    ensures record_kept { stream.new ≡ stream.old }
{
    stream::end(*stream)
}
