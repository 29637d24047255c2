// The assembler: 37-bit words in the order heard, one call each, and the reports of the messages that they make up.
#![tactic(auto)]

mod advancing;
mod call;
mod fits;
mod join;
mod turn;

use report::{Report, Unreadable};
use word::Head;

// What lasts from one call to the next.
#[derive(Clone, Copy, PartialEq, Eq)]
pub enum Assembler {
    Empty,
    // A message is open.
    Started(Partial),
}

// An open message: its first group's continuity index and head, the GSI of the last later group taken (0 while there is none), and how
// many later groups were taken with their contents in order. Unused contents are zero; a fourth later group always completes.
#[repr(C)]
#[derive(Clone, Copy, Default, PartialEq, Eq)]
pub struct Partial {
    pub ci: u8,
    pub head: Head,
    pub gsi: u8,
    pub count: u8,
    pub first: u32,
    pub second: u32,
    pub third: u32,
}

// What a call answers where it refuses nothing.
#[derive(Clone, Copy)]
pub enum Answer {
    // Nothing yet.
    Nothing,
    Report(Report),
    // A tuning word, handed on whole.
    Tuning(u64),
    // An administration word, handed on whole.
    Administration(u64),
}

// The next state and the answer, or why the word or the message that it completes is refused.
#[derive(Clone, Copy)]
pub struct Step {
    pub next: Assembler,
    pub answer: Result<Answer, Unreadable>,
}

// The next state, and whether the word is taken.
#[derive(Clone, Copy)]
pub struct Advance {
    pub next: Assembler,
    pub taken: bool,
}
