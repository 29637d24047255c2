// The Fast Information Block of DAB, and reading the FIGs 5/1 that it carries.
#![tactic(auto)]

ghost use Rattle.std.specs.Prelude.{◌≡◌};
ghost use Rattle.fib.specs.Format.{unread};

use crc::block::CHECK_LENGTH;
use refusal::Refusal;

mod figs;
mod read;

// How far a block was read: how many words, and the byte at which the next FIG begins.
#[derive(Clone, Copy, Debug, Default, PartialEq, Eq)]
pub struct Fib {
    pub count: usize,
    pub at: usize,
}

// How the FIGs of a block were read.
#[derive(Clone, Copy, Debug, PartialEq, Eq)]
pub enum Reading {
    // Every FIG 5/1 was read, and how many words they carry.
    Whole(usize),
    // A FIG 5/1 was refused: how far the block was read before it, and why.
    Stopped { fib: Fib, refusal: Refusal },
}

impl Fib {
    // The bytes of a block, and of its data field, which the check word follows.
    pub const LENGTH: usize = 32;

    pub const DATA: usize = Fib::LENGTH - CHECK_LENGTH;
    // The most words that its FIGs carry.
    pub const WORDS: usize = 14;
    // A byte that ends the FIGs where a header could stand.
    pub const END_MARKER: u8 = 0xFF;
    // A header's count of the bytes that follow it is below this.
    pub const COUNTS: u8 = 32;

    // Nothing was read yet.
    pub fn new() -> Self
        ensures { result ≡ unread }
    {
        Fib { count: 0, at: 0 }
    }
}
