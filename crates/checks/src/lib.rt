// What a call on the message table tests before it does anything.
#![tactic(auto)]

ghost use Rattle.std.specs.Prelude.{◌≡◌};
ghost use Rattle.checks.specs.Checks.{minute_unfit, asked_fit, check_answer};

use clock::{Utc, offset_fits};
use lent::catalogue::{Entry, Kind};
use lent::lent_fit;
use location::Location;
use record::Service;
use refusal::Refusal;
use report::Report;

// What arrives: a report of a service, at a minute of UTC.
#[derive(Clone, Copy)]
pub struct Arrival {
    pub report: Report,
    pub service: Service,
    pub minute: Utc,
}

// The first refusal but that for want of room. An FLT code is one on a single-group report, or the real location of an INTER-ROAD one.
#[tactic(auto, unfolding(crate::specs::Checks::check_answer))]
pub fn check(
    t: &[u8],
    catalogue: &[u16],
    lives: &[u16],
    last: Utc,
    arrival: Arrival,
    lto: i8,
) -> Result<(), Refusal>
    ensures { result ≡ check_answer t.now catalogue.now lives.now last.0 arrival lto }
{
    if !lent_fit(t, catalogue, lives) {
        return Err(Refusal::Malformed);
    }
    let report = arrival.report;
    let service = arrival.service;
    if !asked_fit(report, service, lto) {
        return Err(Refusal::Unfit);
    }
    if minute_unfit(last, arrival.minute) {
        return Err(Refusal::WrongMinute);
    }
    let location = service.location_of(report);
    if Location::is_flt(location.code) {
        return Err(Refusal::ForeignLocation);
    }
    let head = report.head;
    let entry = Entry::of_event(catalogue, head.event);
    if entry.kind() == Kind::Unknown {
        return Err(Refusal::UnknownEvent);
    }
    Ok(())
}

// Whether a minute is below the last one or too large.
pub fn minute_unfit(last: Utc, minute: Utc) -> bool
    ensures { result ≡ minute_unfit last.0 minute.0 }
{
    (minute.0 < last.0) | (Utc::LARGEST < minute.0)
}

// Whether the report, the service and the offset are in their ranges.
#[tactic(auto, unfolding(crate::specs::Checks::asked_fit))]
fn asked_fit(report: Report, service: Service, lto: i8) -> bool
    ensures { result ≡ asked_fit report service lto }
{
    report.fits() & (service.fits() & offset_fits(lto))
}
