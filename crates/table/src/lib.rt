// The message table: lent bytes, one record after the other. Reports are taken, records expire and are read.
#![tactic(auto)]

ghost use Rattle.std.specs.Prelude.{◌≡◌};
ghost use Rattle.table.specs.Steps.{stepped};

mod drop;
mod expire;
mod read;
mod search;
mod sweep;
mod take;

use clock::Utc;
use refusal::Refusal;

// What a take does where there is no room: it drops the record that ends soonest, which is the default, or keeps all and refuses the
// report (14).
#[derive(Clone, Copy, Debug, Default, PartialEq, Eq)]
pub enum WhenFull {
    #[default]
    Drop,
    Keep,
}

// How many records a call freed as expired and as matching, and where it stored the report; or where it dropped a record, none having
// expired or matched, and stored the report.
#[derive(Clone, Copy, Debug, PartialEq, Eq)]
pub enum Answer {
    Freed {
        expired: usize,
        matched: usize,
    },
    Stored {
        expired: usize,
        matched: usize,
        place: usize,
    },
    Dropped {
        place: usize,
    },
}

// The last accepted minute, and the answer.
#[derive(Clone, Copy)]
pub struct Step {
    pub last: Utc,
    pub answer: Result<Answer, Refusal>,
}

impl Step {
    // The step of a call at a minute: a refusal leaves the last accepted minute.
    fn at(last: Utc, minute: Utc, answer: Result<Answer, Refusal>) -> Self
        ensures { result ≡ stepped last.0 minute.0 answer }
    {
        let accepted = if answer.is_ok() { minute } else { last };
        Step {
            last: accepted,
            answer,
        }
    }
}

// The calls on a table.
#[derive(Clone, Copy)]
pub struct Table;
