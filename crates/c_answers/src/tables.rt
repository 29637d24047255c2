// The message table.
ghost use Rattle.std.specs.Prelude.{◌≡◌};
ghost use Rattle.c_answers.specs.Tables.{no_choice, chosen_step, chosen_table, table_answer, renewal_told, record_reading, expiry_told};

use crate::refusals::{NOT_BROKEN, broken_at, number_of, refusal_in};
use c_values::reports::PlainReport;
use checks::Arrival;
use clock::Utc;
use lent::lent_fit;
use record::Service;
use record_report::Kept;
use refusal::Refusal;
use report::{Report, Unreadable};
use table::{Answer, Step, Table, WhenFull};

// Takes a report, the choice for a full table given by its number, 0 or 1. Another number is refused (9) after the table, catalogue or lives
// (10) and before all else.
#[tactic(auto, unfolding(crate::specs::Tables::chosen_step, crate::specs::Tables::chosen_table, crate::specs::Tables::choice_of))]
pub fn take(
    t: &mut [u8],
    catalogue: &[u16],
    lives: &[u16],
    last: Utc,
    arrival: Arrival,
    lto: i8,
    choice: u8,
) -> Step
    ensures value { result ≡ chosen_step t.old catalogue.now lives.now last.0 arrival lto choice }
    ensures t_after { t.new ≡ chosen_table t.old catalogue.now lives.now last.0 arrival lto choice }
{
    let full = match choice {
        0 => WhenFull::Drop,
        1 => WhenFull::Keep,
        _ => {
            return Step {
                last,
                answer: Err(no_choice(t, catalogue, lives)),
            };
        }
    };
    Table::take(t, catalogue, lives, last, arrival, lto, full)
}

// Why a number that is no choice is refused.
fn no_choice(t: &[u8], catalogue: &[u16], lives: &[u16]) -> Refusal
    ensures { result ≡ no_choice t.now catalogue.now lives.now }
{
    if lent_fit(t, catalogue, lives) {
        Refusal::Unfit
    } else {
        Refusal::Malformed
    }
}

// How many records expired and matched, whether the report was stored (1, else 0), its place, and whether the record that stood there was
// dropped for it (1, else 0).
#[repr(C)]
#[derive(Clone, Copy, Default)]
pub struct TableAnswer {
    pub expired: usize,
    pub matched: usize,
    pub place: usize,
    pub stored: u8,
    pub dropped: u8,
    pub refusal: u8,
}

impl From<Result<Answer, Refusal>> for TableAnswer {
    ghost from_gives = { λ answer told. told ≡ table_answer answer };

    fn from(answer: Result<Answer, Refusal>) -> Self {
        let none = TableAnswer::default();
        let kept = TableAnswer { stored: 1, ..none };
        match answer {
            Ok(Answer::Freed { expired, matched }) => TableAnswer {
                expired,
                matched,
                ..none
            },
            Ok(
                Answer::Stored {
                    expired,
                    matched,
                    place,
                },
            ) => TableAnswer {
                expired,
                matched,
                place,
                ..kept
            },
            Ok(Answer::Dropped { place }) => TableAnswer {
                place,
                dropped: 1,
                ..kept
            },
            Err(refusal) => TableAnswer {
                refusal: refusal.into(),
                ..none
            },
        }
    }
}

// How many records are used.
#[repr(C)]
#[derive(Clone, Copy)]
pub struct Renewal {
    pub used: usize,
    pub refusal: u8,
}

impl From<Result<usize, Refusal>> for Renewal {
    ghost from_gives = { λ answer told. told ≡ renewal_told answer };

    fn from(used: Result<usize, Refusal>) -> Self {
        Renewal {
            used: used.unwrap_or(0),
            refusal: refusal_in(used),
        }
    }
}

// A record's report, service and expiry; whether it is in use (1, else 0); and where its content breaks.
#[repr(C)]
#[derive(Clone, Copy)]
pub struct RecordReading {
    pub report: PlainReport,
    pub service: Service,
    pub expiry: u32,
    pub used: u8,
    pub refusal: u8,
    pub broken: u8,
}

impl From<Result<Option<Kept>, Unreadable>> for RecordReading {
    ghost from_gives = { λ answer told. told ≡ record_reading answer };

    fn from(answer: Result<Option<Kept>, Unreadable>) -> Self {
        let free = RecordReading {
            report: Report::new().into(),
            service: Service::default(),
            expiry: 0,
            used: 0,
            refusal: 0,
            broken: NOT_BROKEN,
        };
        match answer {
            Ok(None) => free,
            Ok(Some(kept)) => RecordReading {
                report: kept.report.into(),
                service: kept.service,
                expiry: kept.expiry.0,
                used: 1,
                ..free
            },
            Err(unreadable) => RecordReading {
                refusal: number_of(unreadable),
                broken: broken_at(unreadable),
                ..free
            },
        }
    }
}

// The minute at which a report ends.
#[repr(C)]
#[derive(Clone, Copy)]
pub struct ExpiryAnswer {
    pub minute: u32,
    pub refusal: u8,
}

impl From<Result<Utc, Refusal>> for ExpiryAnswer {
    ghost from_gives = { λ answer told. told ≡ expiry_told answer };

    fn from(end: Result<Utc, Refusal>) -> Self {
        ExpiryAnswer {
            minute: end.unwrap_or(Utc(0)).0,
            refusal: refusal_in(end),
        }
    }
}
