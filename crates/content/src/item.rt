// An item of content: a label and a value.
ghost use Rattle.std.specs.Prelude.{◌≡◌};
ghost use Rattle.content.specs.Packing.{item_fits, zero_item};

use crate::width::width_of;

#[repr(C)]
#[derive(Clone, Copy)]
pub struct Item {
    // As wide as the value: a place then has no padding, and items are copied whole.
    pub label: u16,
    pub value: u16,
}

impl Item {
    // The label that a sub-label follows: no item has it.
    pub const SUBLABELLED: u16 = 15;

    // Bits of a label.
    pub const LABEL_WIDTH: usize = 4;

    // Whether all its bits are zero.
    #[tactic(auto, unfolding(crate::specs::Packing::zero_item))]
    pub fn is_zero(self) -> bool
        ensures { result ≡ zero_item self }
    {
        (self.label == 0) & (self.value == 0)
    }

    // Whether the label has a width and the value is within it.
    #[tactic(auto, unfolding(crate::specs::Packing::item_fits))]
    pub fn fits(self) -> bool
        ensures { result ≡ item_fits self }
    {
        self.label < Self::SUBLABELLED
            && (self.value as u64) < bits::bytes::pow2(width_of(self.label))
    }
}
