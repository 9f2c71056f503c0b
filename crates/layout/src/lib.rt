// The layout of a sample (document 01, "Which bytes are ciphered, and how" and "Pieces"): whether a byte of a range is ciphered, where
// a position lies, how far its key stream block is used there, and how many bytes are held there.
#![tactic(auto)]

ghost use Rattle.std.specs.Prelude.{◌&&◌, [], ◌∷◌, ◌≡◌, ◌%◌, ◌≤◌, ◌+◌, length, take, sum_by, zip};
ghost use Rattle.scheme.specs.Layout.{in_whole_block, in_crypt_run, is_ciphered, total, mask, count as counted};
ghost use Rattle.scheme.specs.Held.{held_at};
ghost use Rattle.scheme.specs.Part.{protected_entries, held_under};
ghost use Rattle.scheme.specs.Walk as spec;
ghost use Rattle.layout.specs.Lies.{Lies};
ghost use Rattle.subsample_spec.specs.Auxiliary.{limit, entry};

use modes_spec::ModeBlock;
use scheme::{Mode, Pattern, Scheme};
use subsample_spec::{Entry, SubsampleMap};
use track_spec::Parameters;

// Whether every protected byte is ciphered.
pub fn every_byte(scheme: Scheme) -> bool
    ensures { result ≡ spec.every_byte scheme }
{
    matches!(scheme, Scheme::Cenc)
}

// Whether the byte at an offset of a range of n bytes lies in a whole block that the pattern ciphers; 0:0 ciphers every one. Length and
// offset as two numbers, as the definitions have them.
fn in_pattern(pattern: Pattern, n: usize, o: usize) -> bool
    ensures { result ≡ in_whole_block n o && in_crypt_run pattern o }
{
    let crypt = pattern.crypt as usize;
    let period = crypt + pattern.skip as usize;
    let block = o / ModeBlock::SIZE;
    block < n / ModeBlock::SIZE && (period == 0 || block % period < crypt)
}

// Whether the byte at an offset of a range of n bytes is ciphered. The four one by one, as `is_ciphered` has them.
pub fn ciphered_at(scheme: Scheme, pattern: Pattern, n: usize, o: usize) -> bool
    ensures { result ≡ is_ciphered scheme pattern n o }
{
    match scheme {
        Scheme::Cenc => true,
        Scheme::Cbc1 => o / ModeBlock::SIZE < n / ModeBlock::SIZE,
        Scheme::Cens | Scheme::Cbcs => in_pattern(pattern, n, o),
    }
}

// The offset o of a protected range of n bytes.
#[derive(Clone, Copy)]
struct Inside {
    n: usize,
    o: usize,
}

// Where a position lies, in a protected range or in clear bytes; and the protected bytes before it.
#[derive(Clone, Copy)]
struct Position {
    inside: Option<Inside>,
    rank: usize,
}

// Where position x lies under given entries.
fn locate_entry(entries: &[Entry], x: usize) -> Position
    requires { length entries.now ≤ limit }
    ensures { Lies entries.now x result }
{
    let mut y = x;
    let mut before = 0;
    for entry in entries {
        let a = entry.clear as usize;
        let n = entry.protected as usize;
        if y < a {
            break;
        }
        let o = y - a;
        if o < n {
            return Position {
                inside: Some(Inside { n, o }),
                rank: before + o,
            };
        }
        y = o - n;
        before += n;
    }
    Position {
        inside: None,
        rank: before,
    }
}

// Where position x lies in a sample that is one protected range.
fn locate_range(length: usize, x: usize) -> Position
    ensures { Lies (entry 0 «length» ∷ []) x result }
{
    if x < length {
        Position {
            inside: Some(Inside { n: length, o: x }),
            rank: x,
        }
    } else {
        Position {
            inside: None,
            rank: length,
        }
    }
}

// Where position x of a protected sample lies.
fn locate(map: SubsampleMap, length: usize, x: usize) -> Position
    ensures { Lies (protected_entries map «length») x result }
{
    if map.count == 0 {
        return locate_range(length, x);
    }
    locate_entry(map.used(), x)
}

// How many bytes of the key stream block are used at position x of a protected sample. Scheme and pattern, map and length one by one, here
// and below, as `mask` and `protected_entries` take them.
pub fn used_at(
    scheme: Scheme,
    pattern: Pattern,
    map: SubsampleMap,
    length: usize,
    x: usize,
) -> usize
    ensures { result ≡ counted (take x (mask scheme pattern (protected_entries map «length»))) % 16 }
{
    let p = locate(map, length, x);
    if every_byte(scheme) {
        return p.rank % ModeBlock::SIZE;
    }
    match p.inside {
        Some(i) if ciphered_at(scheme, pattern, i.n, i.o) => i.o % ModeBlock::SIZE,
        _ => 0,
    }
}

// How many bytes are held at position x of a protected sample.
fn held_in(scheme: Scheme, pattern: Pattern, map: SubsampleMap, length: usize, x: usize) -> usize
    ensures { result ≡ held_at pattern (protected_entries map «length») scheme x }
{
    match scheme.mode() {
        Mode::Counter => 0,
        Mode::Chain => used_at(scheme, pattern, map, length, x),
    }
}

// How many bytes are held at position x of a sample. Parameters, map and length are fields of several structures of the layers above, so
// they are handed in one by one.
pub fn held_at(parameters: Parameters, map: SubsampleMap, length: usize, x: usize) -> usize
    ensures { result ≡ held_under parameters map «length» x }
{
    if parameters.protected != 1 {
        return 0;
    }
    held_in(
        Scheme::of(parameters.code),
        Pattern::of(parameters),
        map,
        length,
        x,
    )
}

// How many bytes the entries of a protected sample call for.
pub fn total_length(map: SubsampleMap, length: usize) -> usize
    ensures { result ≡ total (protected_entries map «length») }
{
    if map.count == 0 {
        return length;
    }
    subsample_map::total(&map)
}
