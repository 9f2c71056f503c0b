// A whole sample, locked and opened in place (document 01, "Which bytes are ciphered, and how").
#![tactic(auto)]

ghost use Rattle.std.specs.Prelude.{◌≡◌, ℕ, ◌<◌, length, get_or};
ghost use Rattle.octets.specs.Answers.{answer};
ghost use Rattle.refusals.specs.Refusals.{answer_of};
ghost use Rattle.aes.specs.Block.{round_keys, encipher, decipher};
ghost use Rattle.modes_spec.specs.declared.Direction.TheVariants.{Lock, Open};
ghost use Rattle.scheme.specs.Part.{transformed};
ghost use Rattle.sample_spec.specs.Sample as spec;

use aes::Key;
use modes::Direction;
pub use refusals::Refusal;
pub use sample_spec::{Inputs, InputsRead};
use track::{Kid, Parameters};

// The key for some parameters in a key record of KID and key: 5 and 6. That of an unprotected track is zero.
#[tactic(auto, unfolding(sample_spec::specs::Sample::find_key, sample_spec::specs::Sample::key_rows, sample_spec::specs::Sample::key_in, octets::specs::Answers::answer))]
pub fn find_key(parameters: Parameters, key_record: &[u8]) -> Result<Key, Refusal>
    ensures { spec.as_key_found result ≡ spec.find_key parameters key_record.now }
{
    if parameters.protected != 1 {
        return Ok(Key([0; Key::SIZE]));
    }
    if key_record.len() != Inputs::KEY_RECORD_SIZE {
        return Err(Refusal::KeyRecord);
    }
    let (kid, key) = key_record.split_at(Kid::SIZE);
    if kid != parameters.kid.0.as_slice() {
        return Err(Refusal::Kid);
    }
    Ok(Key(octets::filled(key)))
}

// Reads the inputs of a sample of some length: 1 to 12.
pub fn read_inputs(inputs: Inputs, sample_length: usize) -> Result<InputsRead, Refusal>
    ensures { spec.as_inputs_read result ≡ spec.read_inputs (spec.lent inputs.entry) sample_length }
{
    let parameters = track::read(inputs.code, inputs.track_box)?;
    let key = find_key(parameters, inputs.key_record)?;
    let data = subsample::read_under(parameters, inputs.auxiliary, sample_length)?;
    Ok(InputsRead {
        parameters,
        key,
        map: data.map,
        iv: data.iv,
    })
}

// Ciphers a whole sample where it lies, under inputs that were read.
fn transform(direction: Direction, inputs: InputsRead, sample: &mut [u8])
    ensures { sample.new ≡ (transformed (encipher (round_keys inputs.key.0)) (decipher (round_keys inputs.key.0)) direction
        inputs.parameters inputs.map (length sample.old) 0 inputs.iv.0 sample.old).released }
{
    part::transform(
        inputs.key.round_keys(),
        direction,
        inputs.parameters,
        inputs.map,
        sample.len(),
        0,
        scheme::first_block(inputs.iv),
        sample,
    );
}

// Each number of a slice is a byte. Does nothing: a proof knows it of a slice parameter, and of a struct's field by this call.
fn known_bytes(s: &[u8])
    ensures { (k : ℕ) → get_or s.now k 0 < 256 }
{}

// Locks or opens a sample where it lies: 1 to 12. A refusal changes nothing.
fn process(direction: Direction, inputs: Inputs, sample: &mut [u8]) -> Result<(), Refusal>
    ensures answer { answer_of result ≡ answer (spec.sample_rows (spec.lent inputs.entry) (length sample.old)) }
    ensures output { sample.new ≡ spec.sample_after direction (spec.lent inputs.entry) sample.old }
{
    known_bytes(inputs.track_box);
    known_bytes(inputs.auxiliary);
    let read = read_inputs(inputs, sample.len())?;
    transform(direction, read, sample);
    Ok(())
}

// Locks a sample where it lies. Both are one line over `process`, and callers name the direction by them.
pub fn lock(inputs: Inputs, sample: &mut [u8]) -> Result<(), Refusal>
    ensures answer { answer_of result ≡ answer (spec.sample_rows (spec.lent inputs.entry) (length sample.old)) }
    ensures output { sample.new ≡ spec.sample_after Lock (spec.lent inputs.entry) sample.old }
{
    process(Direction::Lock, inputs, sample)
}

// Opens a sample where it lies. Both are one line over `process`, and callers name the direction by them.
pub fn open(inputs: Inputs, sample: &mut [u8]) -> Result<(), Refusal>
    ensures answer { answer_of result ≡ answer (spec.sample_rows (spec.lent inputs.entry) (length sample.old)) }
    ensures output { sample.new ≡ spec.sample_after Open (spec.lent inputs.entry) sample.old }
{
    process(Direction::Open, inputs, sample)
}
