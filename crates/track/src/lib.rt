// The track encryption box `tenc`, read (document 01, "The track box"); and all else that a caller needs of a track.
#![tactic(auto)]

ghost use Rattle.std.specs.Prelude.{true, cond, ◌≡◌, ◌≤◌, drop};
ghost use Rattle.octets.specs.Bytes.{filled};
ghost use Rattle.track_spec.specs.Track as spec;

pub use refusals::Refusal;
pub use track_allowed::{check, has_constant, known};
pub use track_spec::{Kid, Parameters, StartVector};
pub use track_write::{length_after, write};

// The constant IV at a place, or zeros where none is called for; a byte past the end counts as zero. The parameters that it belongs to are
// not there yet.
fn constant(at: usize, bytes: &[u8], protected: u8, iv_size: u8) -> StartVector
    ensures { result ≡ record { 0 = cond (spec.has_constant protected iv_size) (filled 16 (drop at bytes.now)) spec.zeros } }
{
    if has_constant(protected, iv_size) {
        StartVector(octets::filled_at(bytes, at))
    } else {
        StartVector([0; StartVector::SIZE])
    }
}

// The parameters that stand from a place on, under a known code and in a version.
fn fields(at: usize, code: &[u8], version: u8, bytes: &[u8]) -> Parameters
    requires { (spec.known code.now ≡ true) × (at ≤ 12) }
    ensures { result ≡ spec.fields_from at code.now version bytes.now }
{
    let pattern = octets::byte_at(bytes, at + 1);
    let protected = octets::byte_at(bytes, at + 2);
    let iv_size = octets::byte_at(bytes, at + 3);
    Parameters {
        code: octets::filled(code),
        version,
        crypt: pattern / 16,
        skip: pattern % 16,
        protected,
        iv_size,
        kid: Kid(octets::filled_at(bytes, at + 4)),
        constant_iv: constant(at + 21, bytes, protected, iv_size),
    }
}

// 3: version, flags, zero byte and pattern.
#[tactic(auto, unfolding(track_spec::specs::Track::bad_head))]
fn bad_head(track_box: &[u8], p: Parameters) -> bool
    ensures { result ≡ spec.bad_head track_box.now p }
{
    track_allowed::bad_version(p.version, p.crypt, p.skip)
        || boxes::flags(track_box) != 0
        || octets::byte_at(track_box, boxes::HEADER) != 0
}

// 4: the fields and the length that they call for.
#[tactic(auto, unfolding(track_spec::specs::Track::bad_fields))]
fn bad_fields(track_box: &[u8], p: Parameters) -> bool
    ensures { result ≡ spec.bad_fields track_box.now p }
{
    !track_allowed::allowed(p)
        || track_box.len() != track_allowed::box_length(p.protected, p.iv_size)
        || (has_constant(p.protected, p.iv_size)
            && octets::byte_at(track_box, Parameters::BOX) != Parameters::CONSTANT_IV_SIZE)
}

// Reads a box under a scheme code: 1 to 4.
#[tactic(auto, unfolding(track_spec::specs::Track::read_box, track_spec::specs::Track::read_rows, track_spec::specs::Track::fields, octets::specs::Answers::answer))]
pub fn read(code: &[u8], track_box: &[u8]) -> Result<Parameters, Refusal>
    ensures { spec.as_box_read result ≡ spec.read_box code.now track_box.now }
{
    if !known(code) {
        return Err(Refusal::Scheme);
    }
    if boxes::bad_frame(Parameters::BOX, *b"tenc", track_box) {
        return Err(Refusal::Frame);
    }
    let p = fields(boxes::HEADER, code, boxes::version(track_box), track_box);
    if bad_head(track_box, p) {
        return Err(Refusal::Version);
    }
    if bad_fields(track_box, p) {
        return Err(Refusal::Fields);
    }
    Ok(p)
}

// The parameters after reading a box: those of an unprotected track where it was refused.
pub fn parameters_after(read: Result<Parameters, Refusal>) -> Parameters
    ensures { result ≡ (spec.as_box_read read).parameters }
{
    read.unwrap_or(Parameters::unprotected())
}
