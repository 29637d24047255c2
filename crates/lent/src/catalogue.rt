// Whether a catalogue is well-formed, and what an entry of it says.
ghost use Rattle.std.specs.Prelude.{◌≡◌};
ghost use Rattle.lent.specs.Catalogue.{entry_at, class_of, kind_of, has_class, type_of, entry_fits, catalogue_fits};

use crate::Lent;

// A kind of event.
#[derive(Clone, Copy, Debug, PartialEq, Eq)]
pub enum Kind {
    Unknown,
    Ordinary,
    Cancelling,
    Null,
}

// An entry of a catalogue.
#[derive(Clone, Copy, Debug, Default, PartialEq, Eq)]
pub struct Entry(pub u16);

impl Entry {
    // An entry is the class, and above it the kind and the duration type: how many there are of each.
    const CLASSES: u16 = 64;

    const KINDS: u16 = 4;

    const TYPES: u16 = 2;

    // Where the duration type stands, and where nothing does any more.
    const TYPE: u16 = Self::CLASSES * Self::KINDS;

    const LIMIT: u16 = Self::TYPE * Self::TYPES;

    // The entry of an event; where the catalogue has none, that of an unknown event.
    pub fn of_event(catalogue: &[u16], event: u16) -> Self
        ensures { result.0 ≡ entry_at catalogue.now event }
    {
        Entry(catalogue.get(event as usize).copied().unwrap_or(0))
    }

    // The update class, 0 for none.
    pub fn class(self) -> u8
        ensures { result ≡ class_of self.0 }
    {
        (self.0 % Self::CLASSES) as u8
    }

    pub fn kind(self) -> Kind
        ensures { result ≡ kind_of self.0 }
    {
        match self.0 / Self::CLASSES % Self::KINDS {
            0 => Kind::Unknown,
            1 => Kind::Ordinary,
            2 => Kind::Cancelling,
            _ => Kind::Null,
        }
    }

    // Whether the event has an update class: if it is ordinary or cancelling.
    pub fn has_class(self) -> bool
        ensures { result ≡ has_class self.0 }
    {
        matches!(self.kind(), Kind::Ordinary | Kind::Cancelling)
    }

    pub fn duration_type(self) -> u16
        ensures { result ≡ type_of self.0 }
    {
        self.0 / Self::TYPE % Self::TYPES
    }

    // Whether the class is 0 exactly if the kind is unknown or null, and nothing stands above the duration type.
    #[tactic(auto, unfolding(crate::specs::Catalogue::entry_fits))]
    pub fn fits(self) -> bool
        ensures { result ≡ entry_fits self.0 }
    {
        (self.0 < Self::LIMIT) & ((self.class() != 0) == self.has_class())
    }
}

// Whether there are 2,048 entries and each fits. Every entry is tested: with no way out between them they are tested side by side.
#[tactic(auto, unfolding(crate::specs::Catalogue::catalogue_fits))]
pub fn catalogue_fits(c: &[u16]) -> bool
    ensures { result ≡ catalogue_fits c.now }
{
    if c.len() != Lent::EVENTS {
        return false;
    }
    c.iter()
        .fold(true, |fits, entry| fits & Entry(*entry).fits())
}
