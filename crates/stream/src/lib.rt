// A sample in pieces (document 01, "Pieces").
#![tactic(auto)]

ghost use Rattle.std.specs.Prelude.{true, ◌||◌, ◌++◌, ◌≡◌, ◌+◌, ◌≤◌, eqb, length, drop};
ghost use Rattle.octets.specs.Bytes.{filled};
ghost use Rattle.joined.specs.Joined.{joined_into};
ghost use Rattle.sample_spec.specs.Sample.{lent};
ghost use Rattle.stream_spec.specs.Stream as spec;

use aes::Block;
use modes::{Direction, ModeBlock};
pub use refusals::Refusal;
pub use sample::Inputs;
use stream_spec::Checked;
pub use stream_spec::{Declared, Fed, Progress, Stream};
use subsample::SubsampleMap;

// Starts a stream of a sample of a declared length: 1 to 12.
pub fn start(direction: Direction, inputs: Inputs, sample_length: usize) -> Result<Stream, Refusal>
    ensures { spec.as_started result ≡ spec.start direction (lent inputs.entry) sample_length }
{
    let read = sample::read_inputs(inputs, sample_length)?;
    let declared = Declared {
        direction,
        parameters: read.parameters,
        length: sample_length,
        map: read.map,
        key: read.key,
    };
    Ok(Stream::begun(declared, read.iv))
}

// The record after a start: that of an empty unprotected track where it was refused.
pub fn stream_after(started: Result<Stream, Refusal>) -> Stream
    ensures { result ≡ (spec.as_started started).stream }
{
    started.unwrap_or(Stream::idle())
}

// Whether what was declared keeps its rules; no entries if unprotected.
#[tactic(auto, unfolding(stream_spec::specs::Stream::sound_declared))]
fn sound_declared(declared: Declared) -> bool
    ensures { result ≡ spec.sound_declared declared }
{
    track::check(declared.parameters).is_ok()
        && declared.length <= SubsampleMap::LONGEST_SAMPLE
        && subsample::check_map(declared.parameters.code, declared.map, declared.length).is_ok()
        && (declared.parameters.protected == 1 || declared.map.count == 0)
}

// How many bytes are held at a position of the declared sample.
fn held_by(declared: Declared, position: usize) -> usize
    ensures { result ≡ spec.held_by declared position }
{
    layout::held_at(declared.parameters, declared.map, declared.length, position)
}

// Whether a record keeps its rules.
#[tactic(auto, unfolding(stream_spec::specs::Stream::sound))]
fn sound(stream: Stream) -> bool
    ensures { result ≡ spec.sound stream }
{
    sound_declared(stream.declared)
        && stream.progress.position <= stream.declared.length
        && stream.progress.held_count == held_by(stream.declared, stream.progress.position)
}

// What feeding n bytes with some room for output is answered, 13 to 15, how many bytes are due and how many are held after it.
#[tactic(auto, using(stream_spec::proofs::Rules::position_within, stream_spec::proofs::Rules::held_most, stream_spec::proofs::Rules::kept_within), unfolding(octets::specs::Answers::answer, stream_spec::specs::Stream::check, stream_spec::specs::Stream::feed_rows, stream_spec::specs::Stream::due))]
fn check(stream: Stream, n: usize, room: usize) -> Result<Checked, Refusal>
    ensures { spec.as_checked result ≡ spec.check stream n room }
{
    if !sound(stream) {
        return Err(Refusal::Record);
    }
    let Stream { declared, progress } = stream;
    if declared.length - progress.position < n {
        return Err(Refusal::Past);
    }
    let kept = held_by(declared, progress.position + n);
    let due = progress.held_count + n - kept;
    if room < due {
        return Err(Refusal::Output);
    }
    Ok(Checked { due, kept })
}

// Fills the output with the first of the held bytes and the piece, and answers those after them, to be held.
fn take_due(progress: Progress, piece: &[u8], out: &mut [u8]) -> [u8; Block::SIZE]
    requires { progress.held_count ≤ 16 }
    ensures { (result ≡ filled 16 (drop (length out.old) ((spec.state_of progress).held ++ piece.now)))
        × (out.new ≡ joined_into (spec.state_of progress).held piece.now out.old) }
{
    let held = &progress.held[..progress.held_count];
    let rest = joined::sixteen_at(held, piece, out.len());
    joined::join(held, piece, out);
    rest
}

// Ciphers a part of the declared sample where it lies, from a position on.
#[tactic(auto, unfolding(stream_spec::specs::Stream::transformed_by))]
fn transform(declared: Declared, from: usize, block: ModeBlock, part: &mut [u8]) -> ModeBlock
    ensures { (part.new ≡ (spec.transformed_by declared from block.0 part.old).released)
        × (result.0 ≡ (spec.transformed_by declared from block.0 part.old).state.block) }
{
    part::transform(
        declared.key.round_keys(),
        declared.direction,
        declared.parameters,
        declared.map,
        declared.length,
        from,
        block,
        part,
    )
}

// Writes what is due into an output of as many bytes, and answers how far the stream has come then.
fn release(stream: Stream, piece: &[u8], kept: usize, out: &mut [u8]) -> Progress
    requires { (spec.sound stream ≡ true) × (stream.progress.position + length piece.now ≤ stream.declared.length)
        × (kept ≡ spec.kept stream (length piece.now)) × (length out.old ≡ spec.due stream (length piece.now)) }
    ensures { (result ≡ (spec.after_piece stream piece.now).progress)
        × (out.new ≡ (spec.fed_by stream piece.now).released) }
{
    let Stream { declared, progress } = stream;
    let rest = take_due(progress, piece, out);
    let next = transform(
        declared,
        progress.position - progress.held_count,
        progress.block,
        out,
    );
    Progress {
        position: progress.position + piece.len(),
        block: next,
        held: rest,
        held_count: kept,
    }
}

// Feeds a piece: 13 to 15. What is due is written from the output's byte 0 on, and nothing past it is touched.
pub fn feed(stream: Stream, piece: &[u8], out: &mut [u8]) -> Result<Fed, Refusal>
    ensures answer { spec.as_fed stream result ≡ spec.feed stream piece.now (length out.old) }
    ensures output { out.new ≡ spec.output_after stream piece.now out.old }
{
    let checked = check(stream, piece.len(), out.len())?;
    if piece.is_empty() {
        return Ok(Fed {
            released: 0,
            stream,
        });
    }
    let progress = release(stream, piece, checked.kept, &mut out[..checked.due]);
    Ok(Fed {
        released: checked.due,
        stream: Stream { progress, ..stream },
    })
}

// What feeding released, and the record after it: nothing, and the record as it was, where it was refused.
pub fn fed_after(stream: Stream, fed: Result<Fed, Refusal>) -> Fed
    ensures released { result.released ≡ (spec.as_fed stream fed).released }
    ensures record_after { result.stream ≡ (spec.as_fed stream fed).stream }
{
    fed.unwrap_or(Fed {
        released: 0,
        stream,
    })
}

// Ends a stream: 13 and 16.
#[tactic(auto, unfolding(octets::specs::Answers::answer, stream_spec::specs::Stream::end_rows, stream_spec::specs::Stream::end))]
pub fn end(stream: Stream) -> Result<(), Refusal>
    ensures { spec.as_ended result ≡ spec.end stream }
{
    if !sound(stream) {
        return Err(Refusal::Record);
    }
    if stream.progress.position != stream.declared.length {
        return Err(Refusal::Early);
    }
    Ok(())
}
