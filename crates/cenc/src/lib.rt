// The C interface: whole samples locked and opened over plain byte ranges, one number back.
#![tactic(auto)]

ghost use Rattle.std.specs.Prelude.{◌≡◌, length};
ghost use Rattle.octets.specs.Answers.{answer};
ghost use Rattle.modes_spec.specs.declared.Direction.TheVariants.{Lock, Open};
ghost use Rattle.sample_spec.specs.Sample.{inputs, lent, sample_rows, sample_after};

use sample::Inputs;

// The four byte ranges as one structure.
fn inputs_of<'a>(
    code: &'a [u8],
    track_box: &'a [u8],
    auxiliary: &'a [u8],
    key_record: &'a [u8],
) -> Inputs<'a>
    ensures { lent result ≡ inputs code.now track_box.now auxiliary.now key_record.now }
{
    Inputs {
        code,
        track_box,
        auxiliary,
        key_record,
    }
}

// A call for each direction, as the header has it.
#[unsafe(no_mangle)]
pub extern "C" fn cenc_lock(
    scheme: &[u8],
    track_box: &[u8],
    auxiliary: &[u8],
    key_record: &[u8],
    sample: &mut [u8],
) -> u8
    ensures { (result ≡ answer (sample_rows (inputs scheme.now track_box.now auxiliary.now key_record.now) (length sample.old)))
        × (sample.new ≡ sample_after Lock (inputs scheme.now track_box.now auxiliary.now key_record.now) sample.old) }
{
    refusals::number(&sample::lock(inputs_of(scheme, track_box, auxiliary, key_record), sample))
}

#[unsafe(no_mangle)]
pub extern "C" fn cenc_open(
    scheme: &[u8],
    track_box: &[u8],
    auxiliary: &[u8],
    key_record: &[u8],
    sample: &mut [u8],
) -> u8
    ensures { (result ≡ answer (sample_rows (inputs scheme.now track_box.now auxiliary.now key_record.now) (length sample.old)))
        × (sample.new ≡ sample_after Open (inputs scheme.now track_box.now auxiliary.now key_record.now) sample.old) }
{
    refusals::number(&sample::open(inputs_of(scheme, track_box, auxiliary, key_record), sample))
}
