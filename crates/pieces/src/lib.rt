// A sample opened in pieces of one size, from C: for measurements.
#![tactic(auto)]

ghost use Rattle.std.specs.Prelude.{◌≡◌, length};
ghost use Rattle.sample_spec.specs.Sample.{inputs};
ghost use Rattle.stream_spec.specs.Stream as streams;
ghost use Rattle.pieces.specs.Pieces as spec;

use modes::Direction;
use sample::Inputs;
use stream::{Refusal, Stream};

// Feeds a record by value, or one that is changed where it lies: C says which by a bool, to time the one beside the other.
fn feed(in_place: bool, stream: &mut Stream, piece: &[u8], out: &mut [u8]) -> Result<usize, Refusal>
    ensures answer { streams.as_fed_in_place result stream.new ≡ streams.feed stream.old piece.now (length out.old) }
    ensures output { out.new ≡ streams.output_after stream.old piece.now out.old }
{
    if in_place {
        return in_place::feed_in_place(stream, piece, out);
    }
    let fed = stream::feed(*stream, piece, out)?;
    *stream = fed.stream;
    Ok(fed.released)
}

// Opens a sample in pieces of `size` bytes, at least one, into an output, by value or in place.
#[unsafe(no_mangle)]
pub extern "C" fn pieces_open(
    scheme: &[u8],
    track_box: &[u8],
    auxiliary: &[u8],
    key_record: &[u8],
    in_place: bool,
    size: usize,
    data: &[u8],
    out: &mut [u8],
) -> u8
    ensures { (result ≡ spec.answered (inputs scheme.now track_box.now auxiliary.now key_record.now) «data».now out.old)
        × (out.new ≡ spec.output (inputs scheme.now track_box.now auxiliary.now key_record.now) «data».now out.old) }
{
    let inputs = Inputs {
        code: scheme,
        track_box,
        auxiliary,
        key_record,
    };
    let mut stream = match stream::start(Direction::Open, inputs, data.len()) {
        Ok(stream) => stream,
        Err(refusal) => return refusal.number(),
    };
    if out.len() < data.len() {
        return Refusal::Output.number();
    }
    let mut done = 0;
    for piece in data.chunks(size.max(1)) {
        // Not refused: the output has room for the whole sample.
        done += feed(in_place, &mut stream, piece, &mut out[done..]).unwrap_or(0);
    }
    refusals::number(&stream::end(stream))
}
