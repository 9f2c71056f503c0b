// AES-128 (FIPS 197): a block of 16 bytes enciphered and deciphered under the round keys of a key of 16 bytes.
#![tactic(auto)]

mod inv_sbox;
mod sbox;

ghost use Rattle.std.specs.Prelude.{◌≡◌, ℕ};
ghost use Rattle.fips197.specs.Field as field;
ghost use Rattle.fips197.specs.State as state;
ghost use Rattle.fips197.specs.Cipher as spec;
ghost use Rattle.fips197.specs.KeyExpansion as schedule;
ghost use Rattle.fips197.specs.InvCipher as inverse;
ghost use Rattle.fips197.specs.Table.{Tabulates};
ghost use Rattle.aes.specs.Block as block;

use inv_sbox::INV_SBOX;
use sbox::SBOX;
use std::array;

// Four columns of four bytes. Functions of a state write out its columns: a closure that makes one needs clauses longer than that list.
pub type State = [[u8; 4]; 4];

// The keys of the initial addition and of each round.
pub type RoundKeys = [State; Key::ROUNDS + 1];

#[derive(Clone, Copy)]
pub struct Key(pub [u8; Key::SIZE]);

#[derive(Clone, Copy)]
pub struct Block(pub [u8; Block::SIZE]);

impl Key {
    pub const SIZE: usize = 16;

    pub const ROUNDS: usize = 10;

    // The round keys, made once and handed to the block functions.
    pub fn round_keys(self) -> RoundKeys
        ensures { result ≡ block.round_keys self.0 }
    {
        key_expansion(self.0)
    }
}

impl Block {
    pub const SIZE: usize = 16;

    pub fn encipher(self, keys: RoundKeys) -> Block
        ensures { result.0 ≡ block.encipher keys self.0 }
    {
        Block(store(cipher(keys, load(self.0))))
    }

    pub fn decipher(self, keys: RoundKeys) -> Block
        ensures { result.0 ≡ block.decipher keys self.0 }
    {
        Block(store(inv_cipher(keys, load(self.0))))
    }
}

// The bytes as columns, and back. Written out, as FIPS 197 draws it: closures for the elements leave each index to be proved.
fn load(b: [u8; Block::SIZE]) -> State
    ensures { result ≡ state.load b }
{
    [
        [b[0], b[1], b[2], b[3]],
        [b[4], b[5], b[6], b[7]],
        [b[8], b[9], b[10], b[11]],
        [b[12], b[13], b[14], b[15]],
    ]
}

fn store(s: State) -> [u8; Block::SIZE]
    ensures { result ≡ state.store s }
{
    [
        s[0][0], s[0][1], s[0][2], s[0][3], s[1][0], s[1][1], s[1][2], s[1][3], s[2][0], s[2][1],
        s[2][2], s[2][3], s[3][0], s[3][1], s[3][2], s[3][3],
    ]
}

fn xtime(x: u8) -> u8
    ensures { result ≡ field.xtime x }
{
    (x << 1) ^ ((x >> 7) * 0x1b)
}

// The bytes of a word, each by its entry in a table.
fn sub_word(w: [u8; 4], table: &[u8; 256]) -> [u8; 4]
    ensures { (f : ℕ → ℕ) → Tabulates f table.now → result ≡ state.four (λ r. f (state.byte w r)) }
{
    array::from_fn(|r| table[w[r] as usize])
}

// SubBytes and InvSubBytes, each by its table.
fn sub_bytes(s: State, table: &[u8; 256]) -> State
    ensures { (f : ℕ → ℕ) → Tabulates f table.now → result ≡ state.four (λ c. state.four (λ r. f (state.cell s r c))) }
{
    [
        sub_word(s[0], table),
        sub_word(s[1], table),
        sub_word(s[2], table),
        sub_word(s[3], table),
    ]
}

fn shift_rows(s: State) -> State
    ensures { result ≡ spec.shift_rows s }
{
    [
        [s[0][0], s[1][1], s[2][2], s[3][3]],
        [s[1][0], s[2][1], s[3][2], s[0][3]],
        [s[2][0], s[3][1], s[0][2], s[1][3]],
        [s[3][0], s[0][1], s[1][2], s[2][3]],
    ]
}

// The first row of the matrix of MixColumns, by a column, whose bytes are handed in turned by one for each row.
fn mix(a: u8, b: u8, c: u8, d: u8) -> u8
    ensures { result ≡ spec.row 2 3 1 1 a b c d }
{
    xtime(a ^ b) ^ (b ^ (c ^ d))
}

fn mix_column(w: [u8; 4]) -> [u8; 4]
    ensures { result ≡ spec.matrix 2 3 1 1 w }
{
    array::from_fn(|i| mix(w[i], w[(i + 1) % 4], w[(i + 2) % 4], w[(i + 3) % 4]))
}

fn mix_columns(s: State) -> State
    ensures { result ≡ spec.mix_columns s }
{
    [
        mix_column(s[0]),
        mix_column(s[1]),
        mix_column(s[2]),
        mix_column(s[3]),
    ]
}

// Of columns, where the mode layers add blocks and slices. A line is as short as a closure here.
fn add_word(w: [u8; 4], k: [u8; 4]) -> [u8; 4]
    ensures { result ≡ spec.add_word w k }
{
    [w[0] ^ k[0], w[1] ^ k[1], w[2] ^ k[2], w[3] ^ k[3]]
}

fn add_round_key(s: State, k: State) -> State
    ensures { result ≡ spec.add_round_key s k }
{
    [
        add_word(s[0], k[0]),
        add_word(s[1], k[1]),
        add_word(s[2], k[2]),
        add_word(s[3], k[3]),
    ]
}

fn round(s: State, k: State) -> State
    ensures { result ≡ spec.round s k }
{
    add_round_key(mix_columns(shift_rows(sub_bytes(s, &SBOX))), k)
}

fn cipher(keys: RoundKeys, s: State) -> State
    ensures { result ≡ spec.cipher keys s }
{
    let mut t = add_round_key(s, keys[0]);
    // A round's state gets a name first: the compiler refuses `t = round(t, ..)` at an array, here and below.
    for k in &keys[1..Key::ROUNDS] {
        let next = round(t, *k);
        t = next;
    }
    add_round_key(shift_rows(sub_bytes(t, &SBOX)), keys[Key::ROUNDS])
}

fn rot_word(w: [u8; 4]) -> [u8; 4]
    ensures { result ≡ schedule.rot_word w }
{
    [w[1], w[2], w[3], w[0]]
}

// The first word of the round key after k.
fn first_word(k: State, rcon: u8) -> [u8; 4]
    ensures { result ≡ schedule.first_word k rcon }
{
    let temp = add_word(sub_word(rot_word(k[3]), &SBOX), [rcon, 0, 0, 0]);
    add_word(k[0], temp)
}

fn next_key(k: State, rcon: u8) -> State
    ensures { result ≡ schedule.next_key k rcon }
{
    let a = first_word(k, rcon);
    let b = add_word(k[1], a);
    let c = add_word(k[2], b);
    let d = add_word(k[3], c);
    [a, b, c, d]
}

fn key_expansion(key: [u8; Key::SIZE]) -> RoundKeys
    ensures { result ≡ schedule.key_expansion key }
{
    let mut k = load(key);
    let mut keys = [k; Key::ROUNDS + 1];
    let mut rcon: u8 = 1;
    for slot in keys[1..].iter_mut() {
        let next = next_key(k, rcon);
        *slot = next;
        k = next;
        rcon = xtime(rcon);
    }
    keys
}

// The rows go the other way than in `shift_rows`, and FIPS 197 writes out both.
fn inv_shift_rows(s: State) -> State
    ensures { result ≡ inverse.inv_shift_rows s }
{
    [
        [s[0][0], s[3][1], s[2][2], s[1][3]],
        [s[1][0], s[0][1], s[3][2], s[2][3]],
        [s[2][0], s[1][1], s[0][2], s[3][3]],
        [s[3][0], s[2][1], s[1][2], s[0][3]],
    ]
}

// The first row of the matrix of InvMixColumns, by a column: 14, 11, 13 and 9 by their bits, doubled from the highest down.
fn inv_mix(a: u8, b: u8, c: u8, d: u8) -> u8
    ensures { result ≡ spec.row 14 11 13 9 a b c d }
{
    let eight = (a ^ b) ^ (c ^ d);
    let four = xtime(eight) ^ (a ^ c);
    let two = xtime(four) ^ (a ^ b);
    xtime(two) ^ (b ^ (c ^ d))
}

// Its row takes other steps than that of `mix_column`, so that one function for both would take the row as a closure, with clauses longer
// than these lines.
fn inv_mix_column(w: [u8; 4]) -> [u8; 4]
    ensures { result ≡ spec.matrix 14 11 13 9 w }
{
    array::from_fn(|i| inv_mix(w[i], w[(i + 1) % 4], w[(i + 2) % 4], w[(i + 3) % 4]))
}

// The same of the four columns.
fn inv_mix_columns(s: State) -> State
    ensures { result ≡ inverse.inv_mix_columns s }
{
    [
        inv_mix_column(s[0]),
        inv_mix_column(s[1]),
        inv_mix_column(s[2]),
        inv_mix_column(s[3]),
    ]
}

// Not `round` with other tables: FIPS 197 has the steps of the inverse in another order.
fn inv_round(s: State, k: State) -> State
    ensures { result ≡ inverse.inv_round s k }
{
    inv_mix_columns(add_round_key(sub_bytes(inv_shift_rows(s), &INV_SBOX), k))
}

fn inv_cipher(keys: RoundKeys, s: State) -> State
    ensures { result ≡ inverse.inv_cipher keys s }
{
    let mut t = add_round_key(s, keys[Key::ROUNDS]);
    for k in keys[1..Key::ROUNDS].iter().rev() {
        let next = inv_round(t, *k);
        t = next;
    }
    add_round_key(sub_bytes(inv_shift_rows(t), &INV_SBOX), keys[0])
}
