// A place: a row of the one table and its value.
ghost use Rattle.std.specs.Prelude.{◌≡◌};
ghost use Rattle.telephone.specs.Meaning.{is_place, meaning_of};

use crate::Meaning;
use crate::sign::Sign;
use bits::bytes::pow2;
use labels::row::{ROWS, next_stage, width_of};

// What a place of a report means, for a display.
#[tactic(auto, using(crate::proofs::Signs::place_row, crate::proofs::Signs::place_value), unfolding(crate::specs::Meaning::meaning_of))]
pub fn meaning(row: u16, value: u16) -> Meaning
    ensures { result ≡ meaning_of row value }
{
    if placed(row, value) {
        Sign::of_row(row).with(value)
    } else {
        Meaning::default()
    }
}

// Whether a report can have the row and the value.
#[tactic(auto, unfolding(crate::specs::Meaning::is_place))]
fn placed(row: u16, value: u16) -> bool
    ensures { result ≡ is_place row value }
{
    if ROWS <= row {
        return false;
    }
    (value as u64) < pow2(width_of(row)) && next_stage(row, value).is_some()
}
