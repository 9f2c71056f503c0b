// The published vectors of FIPS 197 and SP 800-38A, and chained blocks under changing keys, a line each.
#![tactic(auto)]

use aes::{Block, Key, RoundKeys};
use sample::Inputs;
use std::{array, io};

// The published key under KID 1: a key record.
const KEY_RECORD: [u8; 32] =
    *b"\x01\x01\x01\x01\x01\x01\x01\x01\x01\x01\x01\x01\x01\x01\x01\x01\x2b\x7e\x15\x16\x28\xae\xd2\xa6\xab\xf7\x15\x88\x09\xcf\x4f\x3c";

const TRACK_BOX: [u8; 32] =
    *b"\x00\x00\x00\x20tenc\x00\x00\x00\x00\x00\x00\x01\x10\x01\x01\x01\x01\x01\x01\x01\x01\x01\x01\x01\x01\x01\x01\x01\x01";

// 0 to 15.
const COUNTED: [u8; 16] = *b"\x00\x01\x02\x03\x04\x05\x06\x07\x08\x09\x0a\x0b\x0c\x0d\x0e\x0f";

// SP 800-38A, F: the plain text of every mode, and what ECB, CBC and CTR make of it.
const PLAIN: [u8; 64] =
    *b"\x6b\xc1\xbe\xe2\x2e\x40\x9f\x96\xe9\x3d\x7e\x11\x73\x93\x17\x2a\xae\x2d\x8a\x57\x1e\x03\xac\x9c\x9e\xb7\x6f\xac\x45\xaf\x8e\x51\x30\xc8\x1c\x46\xa3\x5c\xe4\x11\xe5\xfb\xc1\x19\x1a\x0a\x52\xef\xf6\x9f\x24\x45\xdf\x4f\x9b\x17\xad\x2b\x41\x7b\xe6\x6c\x37\x10";

const CODEBOOK: [u8; 64] =
    *b"\x3a\xd7\x7b\xb4\x0d\x7a\x36\x60\xa8\x9e\xca\xf3\x24\x66\xef\x97\xf5\xd3\xd5\x85\x03\xb9\x69\x9d\xe7\x85\x89\x5a\x96\xfd\xba\xaf\x43\xb1\xcd\x7f\x59\x8e\xce\x23\x88\x1b\x00\xe3\xed\x03\x06\x88\x7b\x0c\x78\x5e\x27\xe8\xad\x3f\x82\x23\x20\x71\x04\x72\x5d\xd4";

const CHAINED: [u8; 64] =
    *b"\x76\x49\xab\xac\x81\x19\xb2\x46\xce\xe9\x8e\x9b\x12\xe9\x19\x7d\x50\x86\xcb\x9b\x50\x72\x19\xee\x95\xdb\x11\x3a\x91\x76\x78\xb2\x73\xbe\xd6\xb8\xe3\xc1\x74\x3b\x71\x16\xe6\x9e\x22\x22\x95\x16\x3f\xf1\xca\xa1\x68\x1f\xac\x09\x12\x0e\xca\x30\x75\x86\xe1\xa7";

const COUNTER: [u8; 64] =
    *b"\x87\x4d\x61\x91\xb6\x20\xe3\x26\x1b\xef\x68\x64\x99\x0d\xb6\xce\x98\x06\xf6\x6b\x79\x70\xfd\xff\x86\x17\x18\x7b\xb9\xff\xfd\xff\x5a\xe4\xdf\x3e\xdb\xd5\xd3\x5e\x5b\x4f\x09\x02\x0d\xb0\x3e\xab\x1e\x03\x1d\xda\x2f\xbe\x03\xd1\x79\x21\x70\xa0\xf3\x00\x9c\xee";

// FIPS 197, appendix A.1: the 44 words of the key schedule.
fn key_expansion(to: &impl Print, keys: RoundKeys) -> io::Result<()> {
    for (i, w) in keys.as_flattened().iter().enumerate() {
        println!(to; "FIPS 197 A.1 w[{i}] {:08x}", u32::from_be_bytes(*w))?;
    }
    Ok(())
}

// FIPS 197, appendices B and C.1: a block each way. Round keys go by value, as everywhere.
fn example(
    to: &impl Print,
    appendix: &str,
    keys: RoundKeys,
    plain: [u8; 16],
    cipher: [u8; 16],
) -> io::Result<()> {
    let out = u128::from_be_bytes(Block(plain).encipher(keys).0);
    println!(to; "FIPS 197 {appendix} enciphered {out:032x}")?;
    let out = u128::from_be_bytes(Block(cipher).decipher(keys).0);
    println!(to; "FIPS 197 {appendix} deciphered {out:032x}")
}

// SP 800-38A, F: the blocks that one way of a mode makes.
fn block_lines(to: &impl Print, section: u8, way: u8, blocks: &[u8]) -> io::Result<()> {
    for (i, block) in blocks.chunks_exact(Block::SIZE).enumerate() {
        let out = u128::from_be_bytes(octets::filled(block));
        println!(to; "SP 800-38A F.{section}.{way} block {} {out:032x}", i + 1)?;
    }
    Ok(())
}

// A mode both ways: the plain text enciphered, and its cipher text deciphered.
fn mode<E: FnOnce(&mut [u8]), D: FnOnce(&mut [u8])>(
    to: &impl Print,
    section: u8,
    encipher: E,
    cipher: [u8; 64],
    decipher: D,
) -> io::Result<()>
    requires { E.IsAlwaysCallable encipher × D.IsAlwaysCallable decipher }
{
    let mut blocks = PLAIN;
    encipher(&mut blocks);
    block_lines(to, section, 1, &blocks)?;
    let mut blocks = cipher;
    decipher(&mut blocks);
    block_lines(to, section, 2, &blocks)
}

// SP 800-38A, F.1.
fn codebook(to: &impl Print, keys: RoundKeys) -> io::Result<()> {
    mode(
        to,
        1,
        |blocks| ecb::encipher(keys, blocks),
        CODEBOOK,
        |blocks| ecb::decipher(keys, blocks),
    )
}

// SP 800-38A, F.2 and F.5: as a whole sample, of inputs that are accepted.
fn whole(to: &impl Print, section: u8, code: &[u8], iv: &[u8], cipher: [u8; 64]) -> io::Result<()> {
    let inputs = Inputs {
        code,
        track_box: &TRACK_BOX,
        auxiliary: iv,
        key_record: &KEY_RECORD,
    };
    mode(
        to,
        section,
        |blocks| {
            let _ = sample::lock(inputs, blocks);
        },
        cipher,
        |blocks| {
            let _ = sample::open(inputs, blocks);
        },
    )
}

// A key and a block of the chain.
#[derive(Clone, Copy)]
struct Chain {
    key: [u8; Key::SIZE],
    block: [u8; Block::SIZE],
}

// The libraries' own additions of blocks are private.
fn xor(a: [u8; Block::SIZE], b: [u8; Block::SIZE]) -> [u8; Block::SIZE] {
    array::from_fn(|i| a[i] ^ b[i])
}

fn hundred<F: Fn(Block) -> Block>(f: F, first: [u8; Block::SIZE]) -> [u8; Block::SIZE]
    requires { F.IsAlwaysCallable f }
{
    let mut b = Block(first);
    for _ in 0..100 {
        b = f(b);
    }
    b.0
}

impl Chain {
    // A hundred blocks under one key, and the next key.
    fn forward(self) -> Chain {
        let keys = Key(self.key).round_keys();
        let block = hundred(|b| b.encipher(keys), self.block);
        Chain {
            key: xor(self.key, block),
            block,
        }
    }

    // What forward did, undone.
    fn back(self) -> Chain {
        let key = xor(self.key, self.block);
        let keys = Key(key).round_keys();
        Chain {
            key,
            block: hundred(|b| b.decipher(keys), self.block),
        }
    }
}

// A thousand keys, and a line where the chain stands after each hundred.
fn thousand<F: Fn(Chain) -> Chain>(
    to: &impl Print,
    text: &str,
    step: F,
    first: Chain,
) -> io::Result<Chain>
    requires { F.IsAlwaysCallable step }
{
    let mut c = first;
    for i in 1..1001 {
        c = step(c);
        if i % 100 == 0 {
            let key = u128::from_be_bytes(c.key);
            let block = u128::from_be_bytes(c.block);
            println!(to; "chained {i}00 {text} {key:032x} {block:032x}")?;
        }
    }
    Ok(c)
}

// 100 blocks under each of 1,000 keys, and all of it back.
fn chains(to: &impl Print) -> io::Result<()> {
    let first = Chain {
        key: COUNTED,
        block: [0; Block::SIZE],
    };
    let last = thousand(to, "enciphered", |c| c.forward(), first)?;
    thousand(to, "deciphered", |c| c.back(), last)?;
    Ok(())
}

fn main(rt: HostRuntime) -> io::Result<()> {
    let keys = Key(octets::filled(&KEY_RECORD[16..])).round_keys();
    key_expansion(&rt, keys)?;
    example(
        &rt,
        "B",
        keys,
        *b"\x32\x43\xf6\xa8\x88\x5a\x30\x8d\x31\x31\x98\xa2\xe0\x37\x07\x34",
        *b"\x39\x25\x84\x1d\x02\xdc\x09\xfb\xdc\x11\x85\x97\x19\x6a\x0b\x32",
    )?;
    example(
        &rt,
        "C.1",
        Key(COUNTED).round_keys(),
        *b"\x00\x11\x22\x33\x44\x55\x66\x77\x88\x99\xaa\xbb\xcc\xdd\xee\xff",
        *b"\x69\xc4\xe0\xd8\x6a\x7b\x04\x30\xd8\xcd\xb7\x80\x70\xb4\xc5\x5a",
    )?;
    codebook(&rt, keys)?;
    whole(&rt, 2, b"cbc1", &COUNTED, CHAINED)?;
    whole(
        &rt,
        5,
        b"cenc",
        b"\xf0\xf1\xf2\xf3\xf4\xf5\xf6\xf7\xf8\xf9\xfa\xfb\xfc\xfd\xfe\xff",
        COUNTER,
    )?;
    chains(&rt)
}
