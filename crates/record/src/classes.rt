// A set of update classes, and as a record keeps it.
ghost use Rattle.std.specs.Prelude.{◌≡◌};
ghost use Rattle.record.specs.Classes.{meet, set_fits};
ghost use Rattle.record.specs.Layout.{with_set};

use crate::Record;

// Class c is bit c.
#[derive(Clone, Copy, Debug, PartialEq, Eq)]
pub struct Classes(pub u64);

impl Classes {
    // No class.
    pub fn new() -> Self
        ensures { result.0 ≡ 0 }
    {
        Classes(0)
    }

    // Whether the two have a class in common.
    pub fn meets(self, other: Classes) -> bool
        ensures { result ≡ meet self.0 other.0 }
    {
        self.0 & other.0 != 0
    }

    // Whether a record may have them: there is one, and class 0 is not among them.
    pub fn fits(self) -> bool
        ensures { result ≡ set_fits self.0 }
    {
        (self.0 != 0) & (self.0 % 2 == 0)
    }

    // Stores them in a record. Leaves bytes that are not one record's.
    pub fn put(self, r: &mut [u8])
        ensures { r.new ≡ with_set self.0 r.old }
    {
        if r.len() != Record::SIZE {
            return;
        }
        r[Record::CLASSES..].copy_from_slice(&self.0.to_le_bytes());
    }
}
