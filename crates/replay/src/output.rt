// The text of the answers, gathered until it is written out.
ghost use Rattle.std.specs.Prelude.{List, ℕ, ◌≡◌};
ghost use Rattle.replay.specs.Output as spec;

use crate::line;
use arrayvec::ArrayVec;
use itoa::Buffer as Digits;
use refusals::Refusal;
use std::marker::Model;

// Room for two of the longest answers or replies.
const SIZE: usize = 1048576;

// The text, and whether writing has failed: then no more is written. What does not fit is left out. The buffer stays after a failure,
// so the flag stands beside it.
#[derive(Drop)]
pub struct Output {
    buffer: ArrayVec<u8, SIZE>,
    // A word, on its way to the text: an `ArrayVec` lends no slice behind what it holds.
    word: [u8; 2 * line::BYTES],
    failed: bool,
}

// Clauses see the text.
impl Model for Output {
    ghost Value = { List ℕ };

    ghost view = { λ o. o.buffer.items };
}

impl Output {
    pub(crate) fn new() -> Output {
        Output {
            buffer: ArrayVec::new(),
            word: [0; 2 * line::BYTES],
            failed: false,
        }
    }

    pub(crate) fn has_failed(&self) -> bool {
        self.failed
    }

    // Writes the text out.
    pub(crate) fn flush(&mut self, to: &impl Print) {
        if !self.failed {
            self.failed = to.write_all(self.buffer.as_slice()).is_err();
        }
        self.buffer.clear();
    }

    // Writes the text out if half of the buffer is full.
    pub(crate) fn make_room(&mut self, to: &impl Print) {
        if SIZE / 2 < self.buffer.len() {
            self.flush(to);
        }
    }

    #[tactic(auto, unfolding(crate::specs::Output::added))]
    pub(crate) fn text(&mut self, text: &[u8])
        ensures { self.new ≡ spec.added self.old text.now }
    {
        let _ = self.buffer.try_extend_from_slice(text);
    }

    pub(crate) fn byte(&mut self, b: u8) {
        self.text(&[b]);
    }

    // A number in decimal.
    pub(crate) fn number(&mut self, n: u64) {
        let mut digits = Digits::new();
        self.text(digits.format(n).as_bytes());
    }

    // A number, and a byte after it, as most lines part their words; so below bytes and an answer. One for all three would take a closure.
    pub(crate) fn number_then(&mut self, n: u64, b: u8) {
        self.number(n);
        self.byte(b);
    }

    // Bytes as a word.
    pub(crate) fn hex(&mut self, s: &[u8])
        ensures { self.new ≡ spec.added self.old (spec.word s.now) }
    {
        let end = text::put_hex(s, &mut self.word, 0);
        let _ = self.buffer.try_extend_from_slice(&self.word[..end]);
    }

    // Bytes, and a byte after them.
    pub(crate) fn hex_then(&mut self, s: &[u8], b: u8) {
        self.hex(s);
        self.byte(b);
    }

    // The number that a call answered.
    pub(crate) fn answer<T>(&mut self, answer: &Result<T, Refusal>) {
        self.number(refusals::number(answer).into());
    }

    // That number, and a byte after it.
    pub(crate) fn answer_then<T>(&mut self, answer: &Result<T, Refusal>, b: u8) {
        self.answer(answer);
        self.byte(b);
    }

    // `NUMBER BYTES`.
    pub(crate) fn answer_bytes<T>(&mut self, answer: &Result<T, Refusal>, bytes: &[u8]) {
        self.answer_then(answer, b' ');
        self.hex(bytes);
    }
}
