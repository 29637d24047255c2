// The content bits of items.
ghost use Rattle.std.specs.Prelude.{◌≡◌, List, [], ◌∷◌, true};
ghost use Rattle.refusal.specs.Checks.{must};
ghost use Rattle.refusal.specs.declared.Refusal.TheVariants.{Unfit};
ghost use Rattle.content.specs.Packing.{packable};
ghost use Rattle.content.specs.Answers.{packed_of, packed};
ghost use Rattle.content.specs.declared.item.Item as declared;

use crate::content::Content;
use crate::item::Item;
use crate::items::Items;
use crate::width::width_of;
use refusal::Refusal;

// How many bits were packed, and the bits: zero after the items.
#[derive(Clone, Copy)]
pub struct Packed {
    pub bits: usize,
    pub content: Content,
}

// Packs the items: unfit if one is out of range, they take over 112 bits, the last is the zero item, or an unused place is not zero.
pub fn pack(items: Items) -> Result<Packed, Refusal>
    ensures { result ≡ packed_of items }
{
    if !items.well_placed() || items.ends_zero() {
        return Err(Refusal::Unfit);
    }
    let mut packed = Packed::new();
    for i in (0..items.count).rev() {
        packed = packed.prepended(items.places[i])?;
    }
    Ok(packed)
}

impl Packed {
    // No items packed.
    fn new() -> Self
        ensures { result ≡ packed [] }
    {
        Packed {
            bits: 0,
            content: Content::new(),
        }
    }

    // With one item more, before those packed: unfit if it is out of range or there is no room for it.
    fn prepended(self, item: Item) -> Result<Self, Refusal>
        ensures { (its : List declared.Item) → packable its ≡ true → self ≡ packed its → result ≡ must (packable (item ∷ its)) Unfit (Ok (packed (item ∷ its))) }
    {
        if !item.fits() {
            return Err(Refusal::Unfit);
        }
        let w = width_of(item.label);
        let size = Item::LABEL_WIDTH + w;
        if Content::LONGEST - size < self.bits {
            return Err(Refusal::Unfit);
        }
        let value = self.content.prefixed(w, item.value as u64);
        Ok(Packed {
            bits: size + self.bits,
            content: value.prefixed(Item::LABEL_WIDTH, item.label as u64),
        })
    }
}
