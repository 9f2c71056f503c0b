// The counter mode and cipher block chaining over a part of a byte string in place (SP 800-38A, 6.5 and 6.2).
// Round keys go by value, as document 01 has it.
#![tactic(auto)]

ghost use Rattle.std.specs.Prelude.{◌≡◌, ◌+◌, ◌/◌, ◌≤◌, length, drop};
ghost use Rattle.aes.specs.Block as block;
ghost use Rattle.modes_spec.specs.Modes as spec;

use aes::{Block, RoundKeys};
pub use modes_spec::{Direction, ModeBlock};

// The counter block n steps on: bytes 8 to 15 are a number that wraps to zero, and bytes 0 to 7 stay.
fn counter_after(b: [u8; Block::SIZE], n: u64) -> [u8; Block::SIZE]
    ensures { result ≡ spec.counter_at b n }
{
    let c = numbers::be64(&b, 8).wrapping_add(n);
    let mut after = b;
    after[8..].copy_from_slice(&c.to_be_bytes());
    after
}

// A part's bytes and those of a key stream block from a place on, added.
fn xor_part(pad: [u8; Block::SIZE], used: usize, part: &mut [u8])
    requires { used + length part.old ≤ 16 }
    ensures { part.new ≡ spec.xors part.old (drop used pad) }
{
    // By index: after a loop over `part.iter_mut().zip(..)` the library says nothing of the bytes.
    for i in 0..part.len() {
        part[i] ^= pad[used + i];
    }
}

// The counter mode over a part that begins `used` bytes into the key stream; answers the counter block that follows it.
pub fn ctr(keys: RoundKeys, counter: ModeBlock, used: usize, part: &mut [u8]) -> ModeBlock
    ensures { (part.new ≡ spec.ctr (block.encipher keys) counter.0 used part.old)
        × (result.0 ≡ spec.counter_at counter.0 ((used + length part.old) / 16)) }
{
    let from = used % Block::SIZE;
    let mut b = counter_after(counter.0, (used / Block::SIZE) as u64);
    let mut at = 0;
    // The first piece may begin within a block, so none of the library's chunks are these.
    while at < part.len() {
        let skip = (from + at) % Block::SIZE;
        let end = at + (Block::SIZE - skip).min(part.len() - at);
        xor_part(Block(b).encipher(keys).0, skip, &mut part[at..end]);
        at = end;
        if (from + at) % Block::SIZE == 0 {
            let next = counter_after(b, 1);
            b = next;
        }
    }
    ModeBlock(b)
}

// Two blocks added. The block layer's addition is of its columns, and is its own.
fn xor_blocks(a: [u8; Block::SIZE], b: [u8; Block::SIZE]) -> [u8; Block::SIZE]
    ensures { result ≡ spec.xors a b }
{
    let mut r = a;
    xor_part(b, 0, &mut r);
    r
}

// A block after a direction, and its cipher text.
fn chained(
    keys: RoundKeys,
    direction: Direction,
    chain: [u8; Block::SIZE],
    from: [u8; Block::SIZE],
) -> ([u8; Block::SIZE], [u8; Block::SIZE])
    ensures { (result.0 ≡ spec.block_out (block.encipher keys) (block.decipher keys) direction chain from)
        × (result.1 ≡ spec.block_chain (block.encipher keys) (block.decipher keys) direction chain from) }
{
    match direction {
        Direction::Lock => {
            let cipher = Block(xor_blocks(from, chain)).encipher(keys).0;
            (cipher, cipher)
        }
        Direction::Open => {
            let plain = xor_blocks(Block(from).decipher(keys).0, chain);
            (plain, from)
        }
    }
}

// One block of cipher block chaining where it lies; answers its cipher text.
fn chain_block(
    keys: RoundKeys,
    direction: Direction,
    chain: [u8; Block::SIZE],
    part: &mut [u8],
) -> [u8; Block::SIZE]
    requires { length part.old ≡ 16 }
    ensures { (part.new ≡ spec.block_out (block.encipher keys) (block.decipher keys) direction chain part.old)
        × (result ≡ spec.block_chain (block.encipher keys) (block.decipher keys) direction chain part.old) }
{
    let (out, cipher) = chained(keys, direction, chain, octets::filled(part));
    part.copy_from_slice(&out);
    cipher
}

// Cipher block chaining over every whole block of a part; answers the chain after it.
pub fn cbc(keys: RoundKeys, direction: Direction, chain: ModeBlock, part: &mut [u8]) -> ModeBlock
    ensures { (part.new ≡ spec.cbc (block.encipher keys) (block.decipher keys) direction chain.0 part.old)
        × (result.0 ≡ spec.chain_end (block.encipher keys) (block.decipher keys) direction chain.0 part.old) }
{
    let mut c = chain.0;
    // By index: after a loop over `split_first_chunk_mut` or `as_chunks_mut` nothing is known of the bytes lent.
    for i in 0..part.len() / Block::SIZE {
        let at = i * Block::SIZE;
        let next = chain_block(keys, direction, c, &mut part[at..at + Block::SIZE]);
        c = next;
    }
    ModeBlock(c)
}
