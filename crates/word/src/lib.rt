// The 37-bit word of ALERT-C, X (5 bits), Y (16) and Z (16): what it stands for and its fields, both ways.
#![tactic(auto)]

pub mod compose;
mod parse;

// What a single-group message and a first group share: Y14 to Y0 and Z.
#[repr(C)]
#[derive(Clone, Copy, Debug, Default, PartialEq, Eq)]
pub struct Head {
    pub direction: u8,
    pub extent: u8,
    pub event: u16,
    pub location: u16,
}

// What a number stands for as a word.
#[derive(Clone, Copy, Debug, PartialEq, Eq)]
pub enum Word {
    // T = 0, F = 1: a whole message.
    Single {
        duration: u8,
        diversion: u8,
        head: Head,
    },
    // T = 0, F = 0, CI 1 to 6, Y15 = 1: a multi-group message begins.
    First {
        ci: u8,
        head: Head,
    },
    // T = 0, F = 0, CI 1 to 6, Y15 = 0: a later group, with the second-group mark and the groups still to come.
    Later {
        ci: u8,
        second: u8,
        gsi: u8,
        content: u32,
    },
    // T = 1, handed on whole.
    Tuning(u64),
    // T = 0, F = 0, CI 0: encryption administration, handed on whole.
    Administration(u64),
    // T = 0, F = 0, CI 7.
    Index7(u64),
    // A number of 2^37 or more is no word.
    Beyond(u64),
}

impl Word {
    // Words are the numbers below this.
    pub const LIMIT: u64 = 0x20_0000_0000;
    // The largest continuity index of a multi-group message; the smallest is 1.
    pub const LAST_INDEX: u8 = 6;
}
