// The states that calls reach.
ghost use Rattle.std.specs.Prelude.{◌≡◌};
ghost use Rattle.transmission.specs.Reachable.{count_fits};
ghost use Rattle.assembler.specs.Fits.{content_fits, partial_fits, fits as Fits·fits};

use crate::{Assembler, Partial};
use word::compose::{head_fits, is_index};

impl Assembler {
    // Content bits of a later group stand below this.
    pub const CONTENT_LIMIT: u32 = 0x1000_0000;

    // The most later groups of a message.
    pub const LATER: usize = 4;

    // Whether some calls lead from the empty state to this one.
    #[tactic(auto, unfolding(crate::specs::Fits::fits))]
    pub fn fits(self) -> bool
        ensures { result ≡ Fits·fits self }
    {
        match self {
            Assembler::Empty => true,
            Assembler::Started(p) => partial_fits(p),
        }
    }
}

// Whether calls reach the open message.
#[tactic(auto, unfolding(crate::specs::Fits::partial_fits))]
fn partial_fits(p: Partial) -> bool
    ensures { result ≡ partial_fits p }
{
    is_index(p.ci)
        & (head_fits(p.head)
            & (count_fits(p.count, p.gsi)
                & (content_fits(p.count, 0, p.first)
                    & (content_fits(p.count, 1, p.second) & content_fits(p.count, 2, p.third)))))
}

// Whether so many later groups go with the GSI of the last.
#[tactic(auto, using(crate::proofs::States::none_fit, crate::proofs::States::some_fit))]
fn count_fits(count: u8, gsi: u8) -> bool
    ensures { result ≡ count_fits count gsi }
{
    if count == 0 {
        gsi == 0
    } else {
        (1 <= gsi) & (count as usize + gsi as usize <= Assembler::LATER)
    }
}

// Whether the content at a position is one of 28 bits, or zero where the position is not in use.
#[tactic(auto, unfolding(crate::specs::Fits::content_fits))]
fn content_fits(count: u8, position: u8, content: u32) -> bool
    ensures { result ≡ content_fits count position content }
{
    if position < count {
        content < Assembler::CONTENT_LIMIT
    } else {
        content == 0
    }
}
