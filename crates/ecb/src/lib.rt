// The electronic codebook mode (SP 800-38A, section 6.1) over a byte string in place: for published vectors and measurements.
#![tactic(auto)]

ghost use Rattle.std.specs.Prelude.{◌≡◌, true, false, List, ℕ};
ghost use Rattle.octets.specs.Bytes.{filled};
ghost use Rattle.aes.specs.Block.{round_keys};
ghost use Rattle.ecb.specs.Ecb as spec;

use aes::{Block, Key, RoundKeys};

// Every whole block, by a block function that is e of its bytes, where it lies.
fn transform<F: Fn(Block) -> Block>(f: F, data: &mut [u8])
    requires { F.IsAlwaysCallable f }
    ensures { (e : List ℕ → List ℕ) → ((b r : _) → F.post f b r → r.0 ≡ e b.0) → «data».new ≡ spec.ecb e «data».old }
{
    // By index: after a loop over `split_first_chunk_mut` or `as_chunks_mut` nothing is known of the bytes lent.
    for i in 0..data.len() / Block::SIZE {
        let at = i * Block::SIZE;
        let part = &mut data[at..at + Block::SIZE];
        let out = f(Block(octets::filled(part)));
        part.copy_from_slice(&out.0);
    }
}

// Every whole block enciphered under round keys, where it lies.
pub fn encipher(keys: RoundKeys, data: &mut [u8])
    ensures { «data».new ≡ spec.ecb (spec.block_function false keys) «data».old }
{
    transform(|b| b.encipher(keys), data);
}

// Every whole block deciphered; a call for each direction, as the exports are.
pub fn decipher(keys: RoundKeys, data: &mut [u8])
    ensures { «data».new ≡ spec.ecb (spec.block_function true keys) «data».old }
{
    transform(|b| b.decipher(keys), data);
}

// The same from C, under a key that is filled out with zeros, or cut, to 16 bytes.
#[unsafe(no_mangle)]
pub extern "C" fn ecb_encipher(key: &[u8], data: &mut [u8])
    ensures { «data».new ≡ spec.ecb (spec.block_function false (round_keys (filled 16 key.now))) «data».old }
{
    encipher(Key(octets::filled(key)).round_keys(), data);
}

#[unsafe(no_mangle)]
pub extern "C" fn ecb_decipher(key: &[u8], data: &mut [u8])
    ensures { «data».new ≡ spec.ecb (spec.block_function true (round_keys (filled 16 key.now))) «data».old }
{
    decipher(Key(octets::filled(key)).round_keys(), data);
}
