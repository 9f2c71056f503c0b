// What a track may have (document 01, "The track box"; document 02, Asks 2 and 8): the scheme codes, and which parameters are allowed.
#![tactic(auto)]

ghost use Rattle.std.specs.Prelude.{◌≡◌};
ghost use Rattle.octets.specs.Answers.{answer};
ghost use Rattle.refusals.specs.Refusals.{answer_of};
ghost use Rattle.track_spec.specs.Track as spec;

use refusals::Refusal;
use track_spec::{Kid, Parameters, StartVector};

// Whether a code names one of the four schemes.
// By `==`: the arms of a `match` on byte strings would tell a proof the length alone.
#[tactic(auto, using(octets::proofs::Equal::equal), unfolding(track_spec::specs::Track::known))]
pub fn known(code: &[u8]) -> bool
    ensures { result ≡ spec.known code.now }
{
    code == b"cenc".as_slice()
        || code == b"cbc1".as_slice()
        || code == b"cens".as_slice()
        || code == b"cbcs".as_slice()
}

// Whether the track has a constant IV. The numbers one by one: a reader has them before it has parameters.
pub fn has_constant(protected: u8, iv_size: u8) -> bool
    ensures { result ≡ spec.has_constant protected iv_size }
{
    protected == 1 && iv_size == 0
}

// The two counts as numbers, here and below, as the definitions have them.
fn no_pattern(crypt: u8, skip: u8) -> bool
    ensures { result ≡ spec.no_pattern crypt skip }
{
    crypt == 0 && skip == 0
}

fn a_pattern(crypt: u8, skip: u8) -> bool
    ensures { result ≡ spec.a_pattern crypt skip }
{
    (1..=Parameters::MOST_BLOCKS).contains(&crypt) && skip <= Parameters::MOST_BLOCKS
}

// What cens and cbcs may have: a pattern, or 0:0.
fn pattern_or_none(crypt: u8, skip: u8) -> bool
    ensures { result ≡ spec.pattern_or_none crypt skip }
{
    no_pattern(crypt, skip) || a_pattern(crypt, skip)
}

fn eight_or_sixteen(iv_size: u8) -> bool
    ensures { result ≡ spec.eight_or_sixteen iv_size }
{
    matches!(iv_size, 8 | 16)
}

// What a protected track of each scheme may have.
// By `==`: the arms of a `match` on byte strings would tell a proof the length alone.
#[tactic(auto, using(octets::proofs::Equal::equal), unfolding(track_spec::specs::Track::allowed_protected))]
fn allowed_protected(p: Parameters) -> bool
    ensures { result ≡ spec.allowed_protected p.code p.iv_size p.crypt p.skip }
{
    if p.code == *b"cenc" {
        eight_or_sixteen(p.iv_size) && no_pattern(p.crypt, p.skip)
    } else if p.code == *b"cbc1" {
        p.iv_size == 16 && no_pattern(p.crypt, p.skip)
    } else if p.code == *b"cens" {
        eight_or_sixteen(p.iv_size) && pattern_or_none(p.crypt, p.skip)
    } else {
        p.iv_size == 0 && pattern_or_none(p.crypt, p.skip)
    }
}

#[tactic(auto, unfolding(track_spec::specs::Track::allowed_fields))]
fn allowed_fields(p: Parameters) -> bool
    ensures { result ≡ spec.allowed_fields p.code p.protected p.iv_size p.crypt p.skip }
{
    if p.protected == 0 {
        p.iv_size == 0 && no_pattern(p.crypt, p.skip)
    } else {
        p.protected == 1 && allowed_protected(p)
    }
}

// Whether a track is protected under a KID of sixteen zero bytes.
#[tactic(auto, using(octets::proofs::Equal::equal))]
fn under_zero_kid(p: Parameters) -> bool
    ensures { result ≡ spec.under_zero_kid p.protected p.kid.0 }
{
    p.protected == 1 && p.kid.0 == [0; Kid::SIZE]
}

// Whether the fields are allowed, the KID isn't zero if the track is protected, and the constant IV is zero where none is called for.
#[tactic(auto, using(octets::proofs::Equal::equal), unfolding(track_spec::specs::Track::allowed))]
pub fn allowed(p: Parameters) -> bool
    ensures { result ≡ spec.allowed p }
{
    !under_zero_kid(p)
        && (has_constant(p.protected, p.iv_size) || p.constant_iv.0 == [0; StartVector::SIZE])
        && allowed_fields(p)
}

// A version above 1, or a pattern in version 0.
pub fn bad_version(version: u8, crypt: u8, skip: u8) -> bool
    ensures { result ≡ spec.bad_version version crypt skip }
{
    1 < version || (version == 0 && !no_pattern(crypt, skip))
}

// The length of the box that the fields call for, by the two that decide it.
pub fn box_length(protected: u8, iv_size: u8) -> usize
    ensures { result ≡ spec.box_length protected iv_size }
{
    if has_constant(protected, iv_size) {
        Parameters::BOX_WITH_CONSTANT_IV
    } else {
        Parameters::BOX
    }
}

// Checks parameters: 1, 3, 4.
#[tactic(auto, unfolding(octets::specs::Answers::answer))]
pub fn check(parameters: Parameters) -> Result<(), Refusal>
    ensures { answer_of result ≡ answer (spec.parameter_rows parameters) }
{
    if !known(&parameters.code) {
        return Err(Refusal::Scheme);
    }
    if bad_version(parameters.version, parameters.crypt, parameters.skip) {
        return Err(Refusal::Version);
    }
    if !allowed(parameters) {
        return Err(Refusal::Fields);
    }
    Ok(())
}
