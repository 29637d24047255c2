// Content bits still to be read, and one item taken off their front.
ghost use Rattle.std.specs.Prelude.{◌≡◌, ◌+◌, ◌-◌, ◌<◌, ◌≤◌, take, drop, IfOk, IfErr};
ghost use Rattle.bits.specs.Bits.{val, all_zero};
ghost use Rattle.content.specs.Widths.{label_width};
ghost use Rattle.content.specs.Items.{first};
ghost use Rattle.content.specs.Halves.{remaining};
ghost use Rattle.content.specs.Answers.{first_of};

use crate::content::Content;
use crate::item::Item;
use crate::width::width_of;
use refusal::Refusal;

// The first `left` of the bits.
#[derive(Clone, Copy)]
pub struct Rest {
    pub bits: Content,
    pub left: usize,
}

// An item and the bits after it.
#[derive(Clone, Copy)]
pub struct Taken {
    pub item: Item,
    pub rest: Rest,
}

// Why no item can be taken, and how many bits are left where it begins.
#[derive(Clone, Copy, Debug, PartialEq, Eq)]
pub struct Broken {
    pub refusal: Refusal,
    pub left: u8,
}

impl Rest {
    // Whether no bit is set.
    #[tactic(auto, unfolding(crate::specs::Halves::remaining))]
    pub fn is_zero(self) -> bool
        requires { self.left < 128 }
        ensures { result ≡ all_zero (remaining self) }
    {
        self.bits.starts_zero(self.left)
    }

    // The first w bits as a number.
    pub fn head(self, w: usize) -> u64
        requires { (w < 64) × (w ≤ self.left) }
        ensures { result ≡ val (take w (remaining self)) }
    {
        self.bits.first_bits(w)
    }

    // The bits after the first w.
    pub fn tail(self, w: usize) -> Self
        requires { (w < 64) × (w ≤ self.left) × (self.left < 128) }
        ensures { (remaining result ≡ drop w (remaining self)) × (result.left ≡ self.left - w) }
    {
        Rest {
            bits: self.bits.shifted_left(w),
            left: self.left - w,
        }
    }

    // Takes one item: refused as cut short where its bits are missing and at label 15, both with all the bits that are left.
    pub fn take_item(self) -> Result<Taken, Broken>
        requires { self.left < 128 }
        ensures first { first_of result ≡ first (remaining self) }
        ensures shorter { IfOk result (λ taken. taken.rest.left + label_width ≤ self.left) }
        ensures all { IfErr result (λ broken. broken.left ≡ self.left) }
    {
        if self.left < Item::LABEL_WIDTH {
            return Err(self.broken(Refusal::CutShort));
        }
        let label = self.head(Item::LABEL_WIDTH) as u16;
        if label == Item::SUBLABELLED {
            return Err(self.broken(Refusal::Label15));
        }
        let after = self.tail(Item::LABEL_WIDTH);
        let w = width_of(label);
        if after.left < w {
            Err(self.broken(Refusal::CutShort))
        } else {
            let value = after.head(w) as u16;
            Ok(Taken {
                item: Item { label, value },
                rest: after.tail(w),
            })
        }
    }

    // No item begins here.
    fn broken(self, refusal: Refusal) -> Broken
        requires { self.left < 128 }
        ensures { (result.refusal ≡ refusal) × (result.left ≡ self.left) }
    {
        Broken {
            refusal,
            left: self.left as u8,
        }
    }
}
