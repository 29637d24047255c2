// The report of a message: read from its groups, tested as a writer does, and as the message table keeps it.
#![tactic(auto)]

ghost use Rattle.std.specs.Prelude.{◌≡◌};
ghost use Rattle.report.specs.declared.Unreadable.TheVariants.{Refused};

mod fits;
pub mod inter_road;
mod read;
mod record;

use content::items::Items;
use refusal::Refusal;
use word::Head;

// A single-group or a multi-group message.
#[derive(Clone, Copy, Debug, PartialEq, Eq)]
pub enum Form {
    Single,
    Multi,
}

// What a message says. Its items are by value, at most 28, and unused places are zero. The location of an INTER-ROAD message is a foreign
// location table's code, and its real location stands beside it, which is 0 in every other message.
#[derive(Clone, Copy)]
pub struct Report {
    pub items: Items,
    pub head: Head,
    pub real: u16,
    pub diversion: u8,
    pub duration: u8,
    pub form: Form,
}

// Why there is no report.
#[derive(Clone, Copy, Debug, PartialEq, Eq)]
pub enum Unreadable {
    // A refusal alone.
    Refused(Refusal),
    // Content that breaks: the place is the content bit, from 0, at which the item begins that cannot be taken.
    Broken { refusal: Refusal, place: u8 },
}

impl From<Refusal> for Unreadable {
    ghost from_gives = { λ refusal unreadable. unreadable ≡ Refused refusal };

    fn from(refusal: Refusal) -> Unreadable {
        Unreadable::Refused(refusal)
    }
}
