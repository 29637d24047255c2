// The RDS type 8A group, read and written, and the repeat rule over the groups received.
#![tactic(auto)]

use refusal::Refusal;

mod format;
mod repeat;

// What a type 8A group carries besides its type.
#[repr(C)]
#[derive(Clone, Copy, Debug, Default, PartialEq, Eq)]
pub struct Group {
    pub pi: u16,
    pub tp: u8,
    pub pty: u8,
    pub word: u64,
}

// The run of equal words among the 8A groups received last.
#[derive(Clone, Copy, Debug, PartialEq, Eq)]
pub enum Run {
    // No 8A group yet.
    Empty,
    // A run of one.
    One(u64),
    // A run of two or more, which has counted.
    More(u64),
}

// The run after a group, and what the group gave: a valid word, or none yet.
#[derive(Clone, Copy, Debug, PartialEq, Eq)]
pub struct Step {
    pub run: Run,
    pub answer: Result<Option<u64>, Refusal>,
}
