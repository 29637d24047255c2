// Why a call refuses what it is given, and the number that stands for each refusal.
#![tactic(auto)]

ghost use Rattle.std.specs.Prelude.{◌≡◌};
ghost use Rattle.refusal.specs.Number.{number};

use std::error::Error;
use std::fmt;

#[derive(Clone, Copy, Debug, PartialEq, Eq)]
pub enum Refusal {
    WrongLength = 1,
    OtherKind = 2,
    Reserved = 3,
    WrongCheckWord = 4,
    OutOfTurn = 5,
    Continuity7 = 6,
    CutShort = 7,
    Label15 = 8,
    Unfit = 9,
    Malformed = 10,
    UnknownEvent = 11,
    ForeignLocation = 12,
    WrongMinute = 13,
    NoRoom = 14,
    SmallBuffer = 15,
}

impl From<Refusal> for u8 {
    ghost from_gives = { λ refusal n. n ≡ number refusal };

    fn from(refusal: Refusal) -> u8 {
        refusal as u8
    }
}

impl fmt::Display for Refusal {
    fn fmt<W: fmt::Write>(&self, f: &mut fmt::Formatter<W>) -> fmt::Result {
        f.write_str(match self {
            Refusal::WrongLength => "wrong length",
            Refusal::OtherKind => "other group, FIG, application or variant",
            Refusal::Reserved => "reserved bit set, no system words, or padding not zero",
            Refusal::WrongCheckWord => "check word wrong",
            Refusal::OutOfTurn => "later group out of turn",
            Refusal::Continuity7 => "continuity index 7",
            Refusal::CutShort => "content: an item does not fit",
            Refusal::Label15 => "content: label 15",
            Refusal::Unfit => "report, field, word, state, place or choice unfit",
            Refusal::Malformed => "table, record, catalogue or lives malformed",
            Refusal::UnknownEvent => "event unknown to the catalogue",
            Refusal::ForeignLocation => "foreign table's code in place of a location",
            Refusal::WrongMinute => "minute before the last one, or too large",
            Refusal::NoRoom => "no room in the table",
            Refusal::SmallBuffer => "lent buffer too small",
        })
    }
}

impl Error for Refusal {}
