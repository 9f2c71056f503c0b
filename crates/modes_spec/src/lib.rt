// The modes of operation of SP 800-38A: their definitions and laws, the direction in which one runs, and the block that it keeps.
#![tactic(auto)]

// Plain text to cipher text, or back.
#[derive(Clone, Copy)]
pub enum Direction {
    Lock,
    Open,
}

// What a mode keeps from one part to the next: the counter block, or the cipher text that the next block is chained to.
#[derive(Clone, Copy)]
pub struct ModeBlock(pub [u8; ModeBlock::SIZE]);

impl ModeBlock {
    pub const SIZE: usize = 16;
}
