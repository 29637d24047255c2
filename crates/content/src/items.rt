// The items of one message by value: their number, and places of which the unused ones are zero.
ghost use Rattle.std.specs.Prelude.{◌≡◌, [], ◌∷◌, ◌++◌, ◌<◌, ◌≤◌};
ghost use Rattle.content.specs.Packing.{last_zero};
ghost use Rattle.content.specs.Stored.{limit, filled, listed, all_zero_items, well_placed};

use crate::item::Item;

// Items by value, in an array with their number, as the header has them: the memory is fixed. The places stand first: a copy of them then goes
// piece by piece as they were written.
#[repr(C)]
#[derive(Clone, Copy)]
pub struct Items {
    pub places: [Item; Items::LIMIT],
    pub count: usize,
}

impl Items {
    // The most items that content holds.
    pub const LIMIT: usize = 28;

    // No items.
    #[tactic(auto, unfolding(crate::specs::Stored::filled))]
    pub fn new() -> Self
        ensures { result ≡ filled [] }
    {
        let none = Item { label: 0, value: 0 };
        let places = [none; Self::LIMIT];
        Items { count: 0, places }
    }

    // Puts one item more into the first unused place.
    pub(crate) fn push(&mut self, item: Item)
        requires { (self.old.count < limit) × (filled (listed self.old) ≡ self.old) }
        ensures { self.new ≡ filled (listed self.old ++ item ∷ []) }
    {
        self.places[self.count] = item;
        self.count += 1;
    }

    // The items in use.
    #[tactic(auto, unfolding(crate::specs::Stored::listed))]
    pub fn listed(&self) -> &[Item]
        requires { self.now.count ≤ limit }
        ensures { result.now ≡ listed self.now }
    {
        &self.places[..self.count]
    }

    // Whether there are at most 28 and the unused places are zero.
    #[tactic(auto, unfolding(crate::specs::Stored::well_placed))]
    pub fn well_placed(self) -> bool
        ensures { result ≡ well_placed self }
    {
        self.count <= Self::LIMIT && all_zero(&self.places[self.count..])
    }

    // Whether the last item is the zero item.
    pub(crate) fn ends_zero(self) -> bool
        requires { self.count ≤ limit }
        ensures { result ≡ last_zero (listed self) }
    {
        match self.listed().last() {
            Some(item) => item.is_zero(),
            None => false,
        }
    }
}

// Whether every one is the zero item.
#[tactic(auto, unfolding(crate::specs::Stored::all_zero_items))]
fn all_zero(items: &[Item]) -> bool
    ensures { result ≡ all_zero_items items.now }
{
    items.iter().all(|item| item.is_zero())
}
