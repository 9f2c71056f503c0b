// The track encryption box `tenc`, written (document 01, "The track box").
#![tactic(auto)]

ghost use Rattle.std.specs.Prelude.{true, ◌∷◌, ◌++◌, ◌≡◌, ◌+◌, ◌≤◌, length, drop};
ghost use Rattle.octets.specs.Bytes.{placed};
ghost use Rattle.track_spec.specs.Track as spec;

use refusals::Refusal;
use track_spec::{Parameters, StartVector};

// Zero byte, pattern byte, protected flag and IV size.
fn front(p: Parameters) -> [u8; 4]
    requires { (p.crypt ≤ 15) × (p.skip ≤ 15) }
    ensures { result ≡ spec.front_bytes p }
{
    [0, p.crypt * 16 + p.skip, p.protected, p.iv_size]
}

// Stores these four bytes and the KID from a place on, which stands beside the output here and below, as `placed` has it.
fn store_front(p: Parameters, out: &mut [u8], at: usize)
    requires { (p.crypt ≤ 15) × (p.skip ≤ 15) × (at ≤ 12) }
    ensures { out.new ≡ placed (placed out.old at (spec.front_bytes p)) (at + 4) p.kid.0 }
{
    octets::copy(&front(p), out, at);
    octets::copy(&p.kid.0, out, at + 4);
}

// Stores a constant IV with its size from a place on.
fn store_constant(iv: StartVector, out: &mut [u8], at: usize)
    requires { at + 17 ≤ length out.old }
    ensures { out.new ≡ placed out.old at (16 ∷ iv.0) }
{
    octets::copy(&[Parameters::CONSTANT_IV_SIZE], out, at);
    octets::copy(&iv.0, out, at + 1);
}

// Stores the fields of allowed parameters from a place on.
fn store_fields(p: Parameters, out: &mut [u8], at: usize)
    requires { (spec.allowed p ≡ true) × (at ≤ 12) × (at + length (spec.field_bytes p) ≤ length out.old) }
    ensures { out.new ≡ placed out.old at (spec.field_bytes p) }
{
    store_front(p, out, at);
    if track_allowed::has_constant(p.protected, p.iv_size) {
        store_constant(p.constant_iv, out, at + 20);
    }
}

// Stores the box of allowed parameters, of the length that they call for, in front of the output.
fn store(p: Parameters, size: usize, out: &mut [u8])
    requires { (spec.allowed p ≡ true) × (size ≡ spec.box_length p.protected p.iv_size) × (size ≤ length out.old) }
    ensures { out.new ≡ spec.box_bytes p ++ drop (spec.box_length p.protected p.iv_size) out.old }
{
    let header = boxes::header(size as u32, *b"tenc", p.version, 0);
    octets::copy(&header, out, 0);
    store_fields(p, out, boxes::HEADER);
}

// Writes the box of some parameters and answers its length: 1, 3, 4, 17. Only the box's bytes change, and none if refused.
pub fn write(parameters: Parameters, out: &mut [u8]) -> Result<usize, Refusal>
    ensures answer { spec.as_box_written result ≡ spec.write_box parameters (length out.old) }
    ensures output { out.new ≡ spec.after_writing parameters out.old }
{
    track_allowed::check(parameters)?;
    let length = track_allowed::box_length(parameters.protected, parameters.iv_size);
    if out.len() < length {
        return Err(Refusal::Room);
    }
    store(parameters, length, out);
    Ok(length)
}

// The length of what was written: 0 where writing was refused.
pub fn length_after(written: Result<usize, Refusal>) -> usize
    ensures { result ≡ (spec.as_box_written written).length }
{
    written.unwrap_or(0)
}
