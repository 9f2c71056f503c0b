// Two byte strings taken as one: copied to the front of an output, and 16 bytes of them from a place on.
#![tactic(auto)]

ghost use Rattle.std.specs.Prelude.{◌++◌, ◌≡◌, drop};
ghost use Rattle.octets.specs.Bytes.{filled};
ghost use Rattle.joined.specs.Joined.{joined_into};

// Copies both to the front of an output, one after the other, as far as there is room.
pub fn join(first: &[u8], second: &[u8], out: &mut [u8])
    ensures { out.new ≡ joined_into first.now second.now out.old }
{
    let a = first.len().min(out.len());
    let b = second.len().min(out.len() - a);
    out[..a].copy_from_slice(&first[..a]);
    // By index: both are the caller's, and a copy that may overlap would need `memmove` of an archive for C.
    for i in 0..b {
        out[a + i] = second[i];
    }
}

// Their first 16 bytes, filled out with zeros.
fn sixteen(first: &[u8], second: &[u8]) -> [u8; 16]
    ensures { result ≡ filled 16 (first.now ++ second.now) }
{
    let mut out = [0; 16];
    join(first, second, &mut out);
    out
}

// Their 16 bytes from a place on, filled out with zeros.
pub fn sixteen_at(first: &[u8], second: &[u8], at: usize) -> [u8; 16]
    ensures { result ≡ filled 16 (drop at (first.now ++ second.now)) }
{
    match first.get(at..) {
        Some(rest) => sixteen(rest, second),
        None => octets::filled_at(second, at - first.len()),
    }
}
