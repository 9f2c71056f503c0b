// A scheme code and then a box on standard input, told in lines (document 01, "The sheet program").
#![tactic(auto)]

ghost use Rattle.std.specs.Prelude.{List, ℕ, [], ◌≡◌, ◌++◌, ◌+◌, ◌≤◌, length};
ghost use Rattle.text.specs.Text.{decimal};
ghost use Rattle.refusals.specs.Refusals.{refusal_number};
ghost use Rattle.track_spec.specs.Track.{has_constant, as_box_read};
ghost use Rattle.sheet.specs.Sheet as spec;

use arrayvec::ArrayVec;
use itoa::Buffer as Digits;
use std::io::Read;
use std::marker::Model;
use track::{Parameters, Refusal};

// The longest input that is not refused for its length.
const MAX_INPUT: usize = 4096;

// The text written so far. A sheet has at most 140 bytes.
#[derive(Drop)]
struct Page {
    bytes: ArrayVec<u8, 160>,
}

// Clauses see the text.
impl Model for Page {
    ghost Value = { List ℕ };

    ghost view = { λ p. p.bytes.items };
}

impl Page {
    fn new() -> Page
        ensures { result ≡ [] }
    {
        Page {
            bytes: ArrayVec::new(),
        }
    }

    fn text(&mut self, text: &[u8])
        requires { length self.old + length text.now ≤ 160 }
        ensures { self.new ≡ self.old ++ text.now }
    {
        let _ = self.bytes.try_extend_from_slice(text);
    }

    // A number, without leading zeros.
    #[tactic(auto, using(crate::proofs::Texts::decimals))]
    fn decimal(&mut self, n: u8)
        requires { length self.old + 3 ≤ 160 }
        ensures { self.new ≡ self.old ++ decimal n }
    {
        let mut digits = Digits::new();
        self.text(digits.format(n).as_bytes());
    }

    // A name, a value and a newline.
    fn line(&mut self, name: &[u8], value: &[u8])
        requires { length self.old + length name.now + length value.now + 1 ≤ 160 }
        ensures { self.new ≡ self.old ++ spec.line name.now value.now }
    {
        self.text(name);
        self.text(value);
        self.text(b"\n");
    }

    #[tactic(auto, using(crate::proofs::Texts::lengths))]
    fn number_line(&mut self, name: &[u8], n: u8)
        requires { length self.old + length name.now + 4 ≤ 160 }
        ensures { self.new ≡ self.old ++ spec.line name.now (decimal n) }
    {
        self.text(name);
        self.decimal(n);
        self.text(b"\n");
    }

    // The crypt and the skip count, as `pattern_line` of specs has them.
    #[tactic(auto, using(crate::proofs::Texts::lengths), unfolding(crate::specs::Sheet::pattern_line))]
    fn pattern_line(&mut self, crypt: u8, skip: u8)
        requires { length self.old + 16 ≤ 160 }
        ensures { self.new ≡ self.old ++ spec.pattern_line crypt skip }
    {
        self.text(b"pattern ");
        self.decimal(crypt);
        self.text(b":");
        self.decimal(skip);
        self.text(b"\n");
    }

    // The constant IV, or `none`.
    #[tactic(auto, unfolding(crate::specs::Sheet::constant_line))]
    fn constant_line(&mut self, p: Parameters)
        requires { length self.old + 42 ≤ 160 }
        ensures { self.new ≡ self.old ++ spec.constant_line (has_constant p.protected p.iv_size) p.constant_iv.0 }
    {
        if track::has_constant(p.protected, p.iv_size) {
            self.line(b"constant ", &text::hex(p.constant_iv.0));
        } else {
            self.line(b"constant ", b"none");
        }
    }

    fn written(&self) -> &[u8]
        ensures { result.now ≡ self.now }
    {
        self.bytes.as_slice()
    }
}

// The seven lines of parameters.
#[tactic(auto, using(crate::proofs::Texts::lengths), unfolding(crate::specs::Sheet::sheet))]
fn sheet(p: Parameters) -> Page
    ensures { result ≡ spec.sheet p }
{
    let mut page = Page::new();
    page.line(b"scheme ", &p.code);
    page.number_line(b"version ", p.version);
    page.pattern_line(p.crypt, p.skip);
    page.number_line(b"protected ", p.protected);
    page.number_line(b"iv ", p.iv_size);
    page.line(b"kid ", &text::hex(p.kid.0));
    page.constant_line(p);
    page
}

// One line with the number of a refusal.
#[tactic(auto, unfolding(crate::specs::Sheet::refused))]
fn refused(refusal: Refusal) -> Page
    ensures { result ≡ spec.refused (refusal_number refusal) }
{
    let mut page = Page::new();
    page.number_line(b"refused ", refusal.number());
    page
}

// What reading a box tells.
#[tactic(auto, using(refusals::proofs::Numbers::number_positive), unfolding(crate::specs::Sheet::told))]
fn told(read: Result<Parameters, Refusal>) -> Page
    ensures { result ≡ spec.told (as_box_read read) }
{
    match read {
        Ok(parameters) => sheet(parameters),
        Err(refusal) => refused(refusal),
    }
}

// Everything that is written for what was read.
#[tactic(auto, unfolding(crate::specs::Sheet::lines))]
fn render(input: &[u8]) -> Page
    ensures { result ≡ spec.lines input.now }
{
    if input.len() < 4 {
        return refused(Refusal::Scheme);
    }
    let (code, track_box) = input.split_at(4);
    if track::known(code) && MAX_INPUT < input.len() {
        return refused(Refusal::Frame);
    }
    told(track::read(code, track_box))
}

// Reads until the buffer is full or the input ends, and answers how many bytes it put at the buffer's start. A read error counts
// as the end of the input, and what was read before it counts, which `fill` of feeder does not say. A `while`: each reading says
// how far it came.
fn read_full(input: &mut impl Read, buffer: &mut [u8]) -> usize
    ensures { result ≤ length buffer.new }
{
    let mut done = 0;
    while done < buffer.len() {
        let count = input.read(&mut buffer[done..]).unwrap_or(0);
        if count == 0 {
            break;
        }
        done += count;
    }
    done
}

// What stands past one byte over the limit does not change the lines (proofs/Cut.antt), and is not read.
fn main(rt: HostRuntime) {
    let mut input = [0u8; MAX_INPUT + 1];
    let n = read_full(&mut rt.stdin(), &mut input);
    let page = render(&input[..n]);
    if rt.write_all(page.written()).is_err() {
        let _ = rt.eprintln("sheet: cannot write to standard output");
    }
}
