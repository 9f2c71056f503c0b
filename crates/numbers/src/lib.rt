// Big-endian numbers in byte strings: read and written at a place. Each width has functions of its own, as std's `from_be_bytes` has one
// for each type: a trait over them would have as many impls, with the same bodies. 24 bits, which std has not, go by `u32`.
#![tactic(auto)]

ghost use Rattle.std.specs.Prelude.{◌≡◌};
ghost use Rattle.octets.specs.Bytes.{number as number_at, digits, placed};

// The number at a place, bytes past the end counted as zero.
pub fn be16(s: &[u8], at: usize) -> u16
    ensures { result ≡ number_at 2 s.now at }
{
    u16::from_be_bytes(octets::filled_at(s, at))
}

pub fn be24(s: &[u8], at: usize) -> u32
    ensures { result ≡ number_at 3 s.now at }
{
    let [a, b, c] = octets::filled_at::<3>(s, at);
    u32::from_be_bytes([0, a, b, c])
}

pub fn be32(s: &[u8], at: usize) -> u32
    ensures { result ≡ number_at 4 s.now at }
{
    u32::from_be_bytes(octets::filled_at(s, at))
}

pub fn be64(s: &[u8], at: usize) -> u64
    ensures { result ≡ number_at 8 s.now at }
{
    u64::from_be_bytes(octets::filled_at(s, at))
}

// Writes a number from a place on, or nothing where it does not fit. The place beside the string, here and below, as `placed` has it.
pub fn put16(n: u16, out: &mut [u8], at: usize)
    ensures { out.new ≡ placed out.old at (digits 2 n) }
{
    octets::copy(&u16::to_be_bytes(n), out, at);
}

pub fn put32(n: u32, out: &mut [u8], at: usize)
    ensures { out.new ≡ placed out.old at (digits 4 n) }
{
    octets::copy(&u32::to_be_bytes(n), out, at);
}

pub fn put64(n: u64, out: &mut [u8], at: usize)
    ensures { out.new ≡ placed out.old at (digits 8 n) }
{
    octets::copy(&u64::to_be_bytes(n), out, at);
}
