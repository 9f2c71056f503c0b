// The line `issuer`: start vectors granted one after the other.
use crate::line::Words;
use crate::output::Output;
use issuer::Issuer;

// ` NUMBER/VECTOR`; the vector of a refused grant is zeros.
fn reply(issuer: &mut Issuer, blocks: u64, out: &mut Output) {
    let granted = issuer::grant(issuer, blocks);
    out.byte(b' ');
    out.answer_then(&granted, b'/');
    out.hex(&issuer::vector_after(granted).0);
}

// `issuer START COUNT..`, answered by the start's answer and the reply to each count.
pub(crate) fn grants(to: &impl Print, words: Words<'_>, out: &mut Output) {
    let started = issuer::start(words.bytes(1));
    out.answer(&started);
    let mut issuer = issuer::issuer_after(started);
    let mut counts = words.line().split(|b| *b == b' ');
    // The name and the start.
    counts.nth(1);
    for count in counts {
        out.make_room(to);
        let blocks = text::read_number(count, u64::MAX).unwrap_or(0);
        reply(&mut issuer, blocks, out);
    }
}
