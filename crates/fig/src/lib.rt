// FIG 5/1, which carries the Traffic Message Channel of DAB, and reading it.
#![tactic(auto)]

ghost use Rattle.std.specs.Prelude.{◌≡◌};
ghost use Rattle.fig.specs.Format.{empty_fig, word_width};

mod read;

// What a FIG 5/1 says of its words: D1 their width, TCId their service.
#[repr(C)]
#[derive(Clone, Copy, Debug, Default, PartialEq, Eq)]
pub struct Fig {
    pub d1: u8,
    pub tcid: u8,
}

// A FIG read, and how many words it carries.
#[derive(Clone, Copy, Debug, Default, PartialEq, Eq)]
pub struct Reading {
    pub fig: Fig,
    pub count: usize,
}

impl Fig {
    // The type and the extension of a FIG 5/1.
    pub const TYPE: u64 = 5;

    pub const EXTENSION: u64 = 1;
    // What one of a field counts in the 16 bits of the header, by the bits after it; the extension stands last.
    pub const TYPE_WEIGHT: u64 = 0x2000;

    pub const COUNT_WEIGHT: u64 = 0x100;

    pub const D1_WEIGHT: u64 = 0x80;

    pub const D2_WEIGHT: u64 = 0x40;

    pub const TCID_WEIGHT: u64 = 8;
    // The bytes of the header, and at most of the data and of a FIG.
    pub const HEADER: usize = 2;

    pub const DATA: usize = 28;

    pub const LONGEST: usize = Fig::HEADER + Fig::DATA;
    // The most words for D1 = 0, and the bits of each.
    pub const WORDS: usize = 6;

    pub const WIDTH: usize = 37;
    // The most words for D1 = 1, and the bits of each.
    pub const SHORT_WORDS: usize = 14;

    pub const SHORT_WIDTH: usize = 16;
    // The most bits of padding after the words.
    pub const PADDING: usize = 7;
    // D1 and TCId are below these.
    pub const D1S: u8 = 2;

    pub const SERVICES: u8 = 8;

    // Words of 37 bits for service 0.
    pub fn new() -> Self
        ensures { result ≡ empty_fig }
    {
        Fig { d1: 0, tcid: 0 }
    }

    // The bits of a word.
    #[tactic(auto, unfolding(crate::specs::Format::word_width))]
    pub fn width(self) -> usize
        ensures { result ≡ word_width self.d1 }
    {
        if self.d1 == 0 {
            Fig::WIDTH
        } else {
            Fig::SHORT_WIDTH
        }
    }
}
