// What a writer refuses: fields out of their ranges, a unit that is too long, and words that are not whole messages.
ghost use Rattle.std.specs.Prelude.{◌≡◌, ◌≤◌};
ghost use Rattle.drm_write.specs.Write.{bare_fits, headed_fits, header_fits, front_width, unit_length, fields_fit, unit_fits, can_write};

use crc::block::CHECK_LENGTH;
use drm::DataUnit;
use lto::lto_field;
use messages::are_whole;

// Whether the fields and the length are in their ranges, and the words whole messages.
#[tactic(auto, unfolding(crate::specs::Write::can_write))]
pub(crate) fn can_write(unit: DataUnit, words: &[u64]) -> bool
    ensures { result ≡ can_write unit words.now }
{
    if unit_fits(unit, words.len()) {
        are_whole(words)
    } else {
        false
    }
}

// Whether the fields and the length of a unit with n user words are in their ranges.
#[tactic(auto, unfolding(crate::specs::Write::unit_fits))]
fn unit_fits(unit: DataUnit, n: usize) -> bool
    ensures { result ≡ unit_fits unit n }
{
    if fields_fit(unit, n) & (n <= DataUnit::WORDS) {
        unit_length(unit, n) <= DataUnit::LONGEST
    } else {
        false
    }
}

// Whether the fields of a unit with n user words are in their ranges.
#[tactic(auto, unfolding(crate::specs::Write::fields_fit))]
fn fields_fit(unit: DataUnit, n: usize) -> bool
    ensures { result ≡ fields_fit unit n }
{
    (unit.tmchi < DataUnit::TMCHIS) & (unit.id < DataUnit::IDS) & header_fits(unit, n)
}

// Whether the fields after Short ID go with TMCHI.
#[tactic(auto, unfolding(crate::specs::Write::header_fits))]
fn header_fits(unit: DataUnit, n: usize) -> bool
    ensures { result ≡ header_fits unit n }
{
    if unit.tmchi == 0 {
        bare_fits(unit, n)
    } else {
        headed_fits(unit)
    }
}

// Whether there is no field of a header, and a user word or more.
#[tactic(auto, unfolding(crate::specs::Write::bare_fits))]
fn bare_fits(unit: DataUnit, n: usize) -> bool
    ensures { result ≡ bare_fits unit n }
{
    (unit.services == 0)
        & (unit.country == 0)
        & (unit.ecc == 0)
        & (unit.lto == 0)
        & (unit.system == 0)
        & (unit.first == 0)
        & (unit.second == 0)
        & (unit.third == 0)
        & (1 <= n)
}

// Whether the fields of a header are in their ranges.
#[tactic(auto, unfolding(crate::specs::Write::headed_fits))]
fn headed_fits(unit: DataUnit) -> bool
    ensures { result ≡ headed_fits unit }
{
    (unit.services < DataUnit::SERVICES)
        & (unit.country < DataUnit::COUNTRIES)
        & lto_field(unit.lto).is_some()
        & (1 <= unit.system)
        & (unit.system <= DataUnit::SYSTEM_WORDS)
        & ((2 <= unit.system) | (unit.second == 0))
        & ((3 <= unit.system) | (unit.third == 0))
}

// The bits before the system words.
#[tactic(auto, unfolding(crate::specs::Write::front_width))]
pub(crate) fn front_width(unit: DataUnit) -> usize
    ensures value { result ≡ front_width unit }
    ensures few { result ≤ 32 }
{
    if unit.tmchi == 0 {
        DataUnit::START
    } else {
        DataUnit::FRONT
    }
}

// The bytes of a unit with n user words.
pub(crate) fn unit_length(unit: DataUnit, n: usize) -> usize
    requires { n ≤ 27 }
    ensures { result ≡ unit_length unit n }
{
    (front_width(unit)
        + unit.system as usize * DataUnit::SYSTEM_WIDTH
        + n * DataUnit::WIDTH
        + DataUnit::PADDING)
        / 8
        + CHECK_LENGTH
}
