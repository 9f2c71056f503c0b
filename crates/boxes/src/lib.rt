// The frame of a box (ISO/IEC 14496-12, 4.2): its size and type, and a full box's version and flags.
#![tactic(auto)]

ghost use Rattle.std.specs.Prelude.{◌≡◌};
ghost use Rattle.boxes.specs.Box as spec;

// The bytes of size and type, version and flags.
pub const HEADER: usize = 12;

// Whether a slice isn't one whole box of a type, of at least so many bytes.
#[tactic(auto, unfolding(crate::specs::Box::bad_frame))]
pub fn bad_frame(least: usize, kind: [u8; 4], slice: &[u8]) -> bool
    ensures { result ≡ spec.bad_frame least kind slice.now }
{
    // A slice that is too short has no type.
    slice.len() < least
        || numbers::be32(slice, 0) as usize != slice.len()
        || slice.get(4..8) != Some(&kind[..])
}

// A full box's version.
pub fn version(slice: &[u8]) -> u8
    ensures { result ≡ spec.version slice.now }
{
    octets::byte_at(slice, 8)
}

// A full box's flags.
pub fn flags(slice: &[u8]) -> u32
    ensures { result ≡ spec.flags slice.now }
{
    numbers::be24(slice, 9)
}

// The first bytes of a full box; of the flags the lowest 24 bits.
pub fn header(size: u32, kind: [u8; 4], version: u8, flags: u32) -> [u8; HEADER]
    ensures { result ≡ spec.header size kind version flags }
{
    let [a, b, c, d] = size.to_be_bytes();
    let [e, f, g, h] = kind;
    let [_, i, j, k] = flags.to_be_bytes();
    [a, b, c, d, e, f, g, h, version, i, j, k]
}
