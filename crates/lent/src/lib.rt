// What the calls on the message table are lent: a table, a catalogue and lives; whether each is well-formed.
#![tactic(auto)]

ghost use Rattle.std.specs.Prelude.{◌≡◌};
ghost use Rattle.lent.specs.Lent.{lent_fit};

pub mod catalogue;
pub mod lives;
pub mod table;

use crate::catalogue::catalogue_fits;
use crate::lives::lives_fit;
use crate::table::table_fits;

// The limits of what is lent.
#[derive(Clone, Copy)]
pub struct Lent;

impl Lent {
    // The most records of a table.
    pub const RECORDS: usize = 1024;

    // The entries of a catalogue.
    pub const EVENTS: usize = 2048;

    // The lives, and those of each duration type.
    pub const LIVES: usize = 16;

    pub const DURATIONS: usize = 8;
}

// Whether the table, the catalogue and the lives are well-formed.
#[tactic(auto, unfolding(crate::specs::Lent::lent_fit))]
pub fn lent_fit(t: &[u8], catalogue: &[u16], lives: &[u16]) -> bool
    ensures { result ≡ lent_fit t.now catalogue.now lives.now }
{
    table_fits(t) & (catalogue_fits(catalogue) & lives_fit(lives))
}
