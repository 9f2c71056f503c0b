// Numbers and byte strings as text: decimal and hexadecimal digits, and the words of a line.
#![tactic(auto)]

ghost use Rattle.std.specs.Prelude.{true, ◌≡◌, ◌+◌, ◌*◌, ◌/◌, ◌≤◌, leb, min, length, drop, IfSome};
ghost use Rattle.octets.specs.Bytes.{placed};
ghost use Rattle.text.specs.Text as spec;

// The digit of a number below 16; 0 for a number above 15, as `digit` of specs.
pub fn digit(n: u8) -> u8
    ensures { result ≡ spec.digit n }
{
    b"0123456789abcdef".get(n as usize).copied().unwrap_or(0)
}

// The value of a digit, none for any other byte; std's `to_digit` takes capitals too.
pub fn value(c: u8) -> Option<u8>
    ensures { result ≡ spec.value c }
{
    match c {
        b'0'..=b'9' => Some(c - b'0'),
        b'a'..=b'f' => Some(c - b'a' + 10),
        _ => None,
    }
}

// The number from 0 to the largest that a word is, in decimal without leading zeros.
pub fn read_number(word: &[u8], largest: u64) -> Option<u64>
    ensures { (result ≡ spec.number word.now largest) × IfSome result (λ n. n ≤ largest) }
{
    if word.is_empty() || 1 < word.len() && word[0] == b'0' {
        return None;
    }
    of_digits(word, largest)
}

// By hand: `parse` of std takes a `+`, and wants a `str` where a word is any bytes.
fn of_digits(word: &[u8], largest: u64) -> Option<u64>
    ensures { (result ≡ spec.of_digits word.now largest) × IfSome result (λ n. n ≤ largest) }
{
    let mut sum: u64 = 0;
    for c in word {
        let d = value(*c).unwrap_or(16);
        if 9 < d {
            return None;
        }
        sum = sum.checked_mul(10)?.checked_add(u64::from(d))?;
    }
    (sum <= largest).then_some(sum)
}

// Two digits for each byte: `write!` of `{:02x}` into a slice would be a call that can fail for each.
pub fn hex(bytes: [u8; 16]) -> [u8; 32]
    ensures { result ≡ spec.hex bytes }
{
    let mut text = [0u8; 32];
    put_pairs(&bytes, &mut text);
    text
}

// Whether a buffer has room for as many bytes from a place on. `octets` has this test in its one call that needs it.
fn fits(out: &[u8], at: usize, count: usize) -> bool
    ensures { result ≡ leb (at + count) (length out.now) }
{
    at <= out.len() && count <= out.len() - at
}

// Puts a text into a buffer from a place on; answers where it ends. The place beside the buffer, here and below, as `placed` has it.
// What does not fit ends where it began, as `end_of` has it.
pub fn put(text: &[u8], out: &mut [u8], at: usize) -> usize
    ensures { (out.new ≡ placed out.old at text.now) × (result ≡ spec.end_of out.old at text.now) }
{
    if !fits(out, at, text.len()) {
        return at;
    }
    let end = at + text.len();
    out[at..end].copy_from_slice(text);
    end
}

// Puts a byte string into a buffer as a word. What does not fit ends where it began, as `end_of` has it.
pub fn put_hex(s: &[u8], out: &mut [u8], at: usize) -> usize
    ensures { (out.new ≡ placed out.old at (spec.hex_word s.now)) × (result ≡ spec.end_of out.old at (spec.hex_word s.now)) }
{
    if s.is_empty() {
        return put(b"-", out, at);
    }
    let count = 2 * s.len();
    if !fits(out, at, count) {
        return at;
    }
    put_pairs(s, &mut out[at..at + count]);
    at + count
}

fn put_pairs(s: &[u8], out: &mut [u8])
    requires { length out.old ≡ 2 * length s.now }
    ensures { out.new ≡ spec.hex s.now }
{
    // Its places by index: of `as_chunks_mut` zipped with `s` nothing is known afterwards.
    for (i, b) in s.iter().enumerate() {
        out[2 * i] = digit(*b / 16);
        out[2 * i + 1] = digit(*b % 16);
    }
}

// Whether a word is a byte string: two digits for each byte, `-` for none.
pub fn is_bytes(word: &[u8]) -> bool
    ensures { result ≡ spec.is_bytes word.now }
{
    word == b"-".as_slice() || !word.is_empty() && is_hex(word)
}

fn is_hex(word: &[u8]) -> bool
    ensures { result ≡ spec.is_hex word.now }
{
    word.iter().all(|c| value(*c).is_some()) && word.len() % 2 == 0
}

// Puts the bytes that a word is into a buffer from a place on; answers where they end.
// What does not fit ends where it began, as `end_of` has it.
pub fn read_bytes(word: &[u8], out: &mut [u8], at: usize) -> usize
    ensures { (out.new ≡ placed out.old at (spec.bytes_of word.now)) × (result ≡ spec.end_of out.old at (spec.bytes_of word.now)) }
{
    let count = word.len() / 2;
    if !is_bytes(word) || !fits(out, at, count) {
        return at;
    }
    read_pairs(word, &mut out[at..at + count]);
    at + count
}

fn read_pairs(word: &[u8], out: &mut [u8])
    requires { (length out.old ≡ length word.now / 2) × (spec.is_bytes word.now ≡ true) }
    ensures { out.new ≡ spec.unhex word.now }
{
    // Its place by index: of `iter_mut` zipped with the pairs nothing is known afterwards.
    for (i, pair) in word.as_chunks::<2>().0.iter().enumerate() {
        let high = value(pair[0]).unwrap_or(0);
        let low = value(pair[1]).unwrap_or(0);
        out[i] = high * 16 + low;
    }
}

// A word of a line, counted from 0; empty where there are not so many.
pub fn word(line: &[u8], index: usize, parting: u8) -> &[u8]
    ensures { result.now ≡ spec.word parting index line.now }
{
    line.split(|b| *b == parting).nth(index).unwrap_or(&[])
}

// Where a word of a line starts and ends.
#[derive(Clone, Copy)]
pub struct Span {
    pub start: usize,
    pub end: usize,
}

// The word from a place on, up to the next byte that parts words or the end of the line.
pub fn word_at(line: &[u8], at: usize, parting: u8) -> Span
    ensures { (result ≡ spec.word_at parting at line.now) × (result.start ≡ min at (length line.now)) × (result.start ≤ result.end) × (result.end ≤ length line.now) }
{
    let start = at.min(line.len());
    Span {
        start,
        end: start + word(&line[start..], 0, parting).len(),
    }
}

// Where a word of a line starts; past the end where there are not so many.
pub fn word_start(line: &[u8], index: usize, parting: u8) -> usize
    ensures { drop result line.now ≡ spec.from_word parting index line.now }
{
    let mut start = 0;
    for _ in 0..index {
        start = word_at(line, start, parting).end + 1;
    }
    start
}

// The number from 0 to the largest that a word of a line is.
pub fn number_at(line: &[u8], index: usize, parting: u8, largest: u64) -> Option<u64>
    ensures { (result ≡ spec.number (spec.word parting index line.now) largest) × IfSome result (λ n. n ≤ largest) }
{
    read_number(word(line, index, parting), largest)
}
