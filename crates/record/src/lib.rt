// One record of the message table: its layout, its test, and freeing it.
#![tactic(auto)]

ghost use Rattle.std.specs.Prelude.{◌≡◌};
ghost use Rattle.record.specs.Services.{service_fits};

pub mod classes;
pub mod fields;
pub mod freeing;
pub mod locations;
mod matching;
pub mod test;

use crate::classes::Classes;
use location::Location;

// A service: country, location table number and service identifier.
#[repr(C)]
#[derive(Clone, Copy, Debug, Default, PartialEq, Eq)]
pub struct Service {
    pub country: u8,
    pub ltn: u8,
    pub sid: u8,
}

impl Service {
    pub const LARGEST_COUNTRY: u8 = 15;

    pub const LARGEST_LTN: u8 = 63;

    pub const LARGEST_SID: u8 = 63;

    // Whether the fields are in their ranges.
    pub fn fits(self) -> bool
        ensures { result ≡ service_fits self }
    {
        (self.country <= Self::LARGEST_COUNTRY)
            & ((self.ltn <= Self::LARGEST_LTN) & (self.sid <= Self::LARGEST_SID))
    }
}

// What a report is matched by: its service, location, direction and the update classes of its events.
#[derive(Clone, Copy)]
pub struct Key {
    pub service: Service,
    pub location: Location,
    pub direction: u8,
    pub classes: Classes,
}

// How many records a call freed as expired and as matching.
#[derive(Clone, Copy, Debug, Default, PartialEq, Eq)]
pub struct Freed {
    pub expired: usize,
    pub matched: usize,
}

// The layout of a record.
#[derive(Clone, Copy)]
pub struct Record;

impl Record {
    // The bytes of a record.
    pub const SIZE: usize = 42;

    // Where each part begins: the mark of a used record, then as named.
    pub const MARK: usize = 0;

    pub const GROUPS: usize = 1;

    pub const SID: usize = 2;

    pub const LTN: usize = 3;

    pub const LOCATION: usize = 4;

    pub const EVENT: usize = 6;

    pub const DIRECTION: usize = 8;

    pub const EXTENT: usize = 9;

    pub const DIVERSION: usize = 10;

    pub const DURATION: usize = 11;

    pub const EXPIRY: usize = 12;

    pub const CONTENT: usize = 16;

    // A byte that is 0.
    pub const RESERVED: usize = 30;

    pub const COUNTRY: usize = 31;

    pub const LOCATION_COUNTRY: usize = 32;

    pub const LOCATION_LTN: usize = 33;

    pub const CLASSES: usize = 34;

    // The most groups; the least is 1.
    pub const MOST_GROUPS: u8 = 5;
}
