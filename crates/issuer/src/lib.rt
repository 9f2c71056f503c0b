// Start vectors without a clock (document 02, Ask 3): starting an issuer, and its grants.
#![tactic(auto)]

ghost use Rattle.std.specs.Prelude.{◌++◌, ◌≡◌};
ghost use Rattle.issuer_spec.specs.Issuer as spec;

pub use issuer_spec::{Issuer, IvSize};
pub use refusals::Refusal;
use track_spec::StartVector;

// Starts an issuer from 8 or 16 bytes: 31.
#[tactic(auto, using(octets::proofs::Bytes::filled_long), unfolding(issuer_spec::specs::Issuer::start, issuer_spec::specs::Issuer::start_rows, issuer_spec::specs::Issuer::started, octets::specs::Answers::answer))]
pub fn start(bytes: &[u8]) -> Result<Issuer, Refusal>
    ensures { spec.as_started result ≡ spec.start bytes.now }
{
    match bytes.len() {
        8 => Ok(Issuer {
            size: IvSize::Eight,
            first: [0; 8],
            counter: numbers::be64(bytes, 0),
            used_up: false,
        }),
        StartVector::SIZE => Ok(Issuer {
            size: IvSize::Sixteen,
            first: octets::filled(bytes),
            counter: numbers::be64(bytes, 8),
            used_up: false,
        }),
        _ => Err(Refusal::Start),
    }
}

// The issuer after a start: one that is used up where it was refused.
pub fn issuer_after(started: Result<Issuer, Refusal>) -> Issuer
    ensures { result ≡ (spec.as_started started).issuer }
{
    started.unwrap_or(Issuer::exhausted())
}

// Eight bytes and eight more.
fn joined(a: [u8; 8], b: [u8; 8]) -> [u8; StartVector::SIZE]
    ensures { result ≡ a ++ b }
{
    let mut out = [0; StartVector::SIZE];
    out[..8].copy_from_slice(&a);
    out[8..].copy_from_slice(&b);
    out
}

// The start vector of an issuer's counter, filled out with zeros in size 8.
#[tactic(auto, using(octets::proofs::BigEndian::big_endian), unfolding(issuer_spec::specs::Issuer::vector))]
fn vector(issuer: Issuer) -> StartVector
    ensures { result.0 ≡ spec.vector issuer.size issuer.first issuer.counter }
{
    match issuer.size {
        IvSize::Eight => StartVector(joined(issuer.counter.to_be_bytes(), [0; 8])),
        IvSize::Sixteen => StartVector(joined(issuer.first, issuer.counter.to_be_bytes())),
    }
}

// By how much a sample of so many blocks advances the counter: in size 8 to the next one, in size 16 by its blocks.
#[tactic(auto, unfolding(issuer_spec::specs::Issuer::advance))]
fn advance(size: IvSize, blocks: u64) -> u64
    ensures { result ≡ spec.advance size blocks }
{
    match size {
        IvSize::Eight => 1,
        IvSize::Sixteen => blocks,
    }
}

// The issuer once all counters up to `last` are covered: it goes on with the next one, and after the largest it is used up.
#[tactic(auto, unfolding(issuer_spec::specs::Issuer::after))]
fn after(issuer: Issuer, last: u64) -> Issuer
    ensures { result ≡ spec.after issuer last }
{
    match last.checked_add(1) {
        Some(counter) => Issuer { counter, ..issuer },
        None => Issuer {
            used_up: true,
            ..issuer
        },
    }
}

// 19: a count below 1 or above the most.
fn bad_count(blocks: u64) -> bool
    ensures { result ≡ spec.bad_count blocks }
{
    !(1..=Issuer::MOST_BLOCKS).contains(&blocks)
}

// Grants a start vector for a sample of so many blocks, and moves the issuer on: 19 and 20. A refusal leaves the issuer as it was.
#[tactic(auto, unfolding(issuer_spec::specs::Issuer::grant, issuer_spec::specs::Issuer::grant_rows, issuer_spec::specs::Issuer::last_counter, octets::specs::Answers::answer))]
pub fn grant(issuer: &mut Issuer, blocks: u64) -> Result<StartVector, Refusal>
    ensures { spec.as_granted result issuer.new ≡ spec.grant issuer.old blocks }
{
    if bad_count(blocks) {
        return Err(Refusal::Count);
    }
    if issuer.used_up {
        return Err(Refusal::UsedUp);
    }
    let past = advance(issuer.size, blocks) - 1;
    let Some(last) = issuer.counter.checked_add(past) else {
        return Err(Refusal::UsedUp);
    };
    let granted = vector(*issuer);
    *issuer = after(*issuer, last);
    Ok(granted)
}

// The start vector after a grant: zeros where it was refused.
pub fn vector_after(granted: Result<StartVector, Refusal>) -> StartVector
    ensures { (issuer : Issuer) → result ≡ (spec.as_granted granted issuer).vector }
{
    granted.unwrap_or(StartVector([0; StartVector::SIZE]))
}
