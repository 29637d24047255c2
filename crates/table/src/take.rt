// A report is taken into the table.
ghost use Rattle.std.specs.Prelude.{◌≡◌, true, cond, not, ◌&&◌, ◌/◌, ◌%◌, ◌<◌, length, Ok};
ghost use Rattle.refusal.specs.Checks.{must};
ghost use Rattle.refusal.specs.declared.Refusal.TheVariants.{NoRoom};
ghost use Rattle.record.specs.Layout.{record_size};
ghost use Rattle.record.specs.Matching.{matching};
ghost use Rattle.record_report.specs.Made.{record_of, can_make};
ghost use Rattle.lent.specs.Records.{records};
ghost use Rattle.classes.specs.Keys.{key_of};
ghost use Rattle.checks.specs.Checks.{check_answer};
ghost use Rattle.table.specs.declared.Answer.TheVariants.{Freed, Dropped};
ghost use Rattle.table.specs.Records.{soonest, stored};
ghost use Rattle.table.specs.Steps.{expired_in, after_matching, matched_in, no_room, after_storing};
ghost use Rattle.table.specs.Take.{keeps, storing_answer, take_answer, take_step, take_table};

use crate::drop::find_soonest;
use crate::expire::free_expired;
use crate::search::find_free;
use crate::sweep::sweep_gone;
use crate::{Answer, Step, Table, WhenFull};
use checks::{Arrival, check};
use classes::of_report;
use clock::Utc;
use lent::Lent;
use lent::catalogue::{Entry, Kind};
use record::classes::Classes;
use record::{Key, Record};
use record_report::Kept;
use record_report::make::put;
use refusal::Refusal;

impl Table {
    // Takes a report of a service at a minute with a local time offset: frees the expired records and, for an ordinary or a cancelling
    // event, the matching ones, and stores the report of an ordinary event in the lowest-numbered free record. Where none is free, the
    // record that ends soonest is dropped for it, the lowest-numbered on a tie, or all are kept. Refused, in this order: a malformed table,
    // catalogue or lives (10), an unfit report, service or offset (9), a minute below the last one or too large (13), a location whose code
    // is an FLT code (12), an unknown event (11), no room where all records are kept (14). A refusal changes nothing.
    pub fn take(
        t: &mut [u8],
        catalogue: &[u16],
        lives: &[u16],
        last: Utc,
        arrival: Arrival,
        lto: i8,
        full: WhenFull,
    ) -> Step
        ensures value { result ≡ take_step t.old catalogue.now lives.now last.0 arrival lto full }
        ensures t_after { t.new ≡ take_table t.old catalogue.now lives.now last.0 arrival lto full }
    {
        let answer = take_after(t, catalogue, lives, last, arrival, lto, full);
        Step::at(last, arrival.minute, answer)
    }
}

// The answer of the call.
#[tactic(auto, unfolding(crate::specs::Take::take_answer, crate::specs::Take::take_table))]
fn take_after(
    t: &mut [u8],
    catalogue: &[u16],
    lives: &[u16],
    last: Utc,
    arrival: Arrival,
    lto: i8,
    full: WhenFull,
) -> Result<Answer, Refusal>
    ensures value { result ≡ take_answer t.old catalogue.now lives.now last.0 arrival lto full }
    ensures t_after { t.new ≡ take_table t.old catalogue.now lives.now last.0 arrival lto full }
{
    check(t, catalogue, lives, last, arrival, lto)?;
    take_checked(t, catalogue, lives, last, arrival, lto, full)
}

// A report that nothing refuses but, perhaps, want of room.
fn take_checked(
    t: &mut [u8],
    catalogue: &[u16],
    lives: &[u16],
    last: Utc,
    arrival: Arrival,
    lto: i8,
    full: WhenFull,
) -> Result<Answer, Refusal>
    requires { check_answer t.old catalogue.now lives.now last.0 arrival lto ≡ Ok tt }
    ensures value { result ≡ take_answer t.old catalogue.now lives.now last.0 arrival lto full }
    ensures t_after { t.new ≡ take_table t.old catalogue.now lives.now last.0 arrival lto full }
{
    let report = arrival.report;
    let minute = arrival.minute;
    let entry = Entry::of_event(catalogue, report.head.event);
    match entry.kind() {
        // The checks refuse it.
        Kind::Unknown => Err(Refusal::UnknownEvent),
        Kind::Null => Ok(free_expired(t, minute)),
        Kind::Cancelling => {
            let key = key_of(arrival, catalogue);
            Ok(take_cancelling(t, minute, key))
        }
        Kind::Ordinary => {
            let life = lives[Lent::DURATIONS * entry.duration_type() as usize
                + report.duration as usize];
            // The checks leave the clock nothing to refuse.
            let expiry = minute.expiry(lto, life)?;
            let kept = Kept {
                report,
                service: arrival.service,
                expiry,
            };
            let key = key_of(arrival, catalogue);
            take_ordinary(t, minute, kept, key, full)
        }
    }
}

// What the report is matched by.
fn key_of(arrival: Arrival, catalogue: &[u16]) -> Key
    ensures { result ≡ key_of catalogue.now arrival.service arrival.report }
{
    let report = arrival.report;
    let service = arrival.service;
    Key {
        service,
        location: service.location_of(report),
        direction: report.head.direction,
        classes: of_report(report, catalogue),
    }
}

// A cancelling message frees the expired and the matching records.
fn take_cancelling(t: &mut [u8], minute: Utc, key: Key) -> Answer
    requires { length t.old % record_size ≡ 0 }
    ensures value { result ≡ Freed (expired_in minute.0 t.old) (matched_in minute.0 (matching key) t.old) }
    ensures t_after { t.new ≡ after_matching minute.0 (matching key) t.old }
{
    let freed = sweep_gone(t, minute, key);
    Answer::Freed {
        expired: freed.expired,
        matched: freed.matched,
    }
}

// An ordinary message is stored, if steps 1 and 2 leave a record free; else they freed none.
fn take_ordinary(
    t: &mut [u8],
    minute: Utc,
    kept: Kept,
    key: Key,
    full: WhenFull,
) -> Result<Answer, Refusal>
    requires { (length t.old % record_size ≡ 0) × (0 < length t.old / record_size) × (can_make kept key.classes.0 ≡ true) }
    ensures value { result ≡ must (not (no_room minute.0 (matching key) t.old && keeps full)) NoRoom (Ok (storing_answer minute.0 (matching key) t.old)) }
    ensures t_after { t.new ≡ cond (no_room minute.0 (matching key) t.old && keeps full) t.old (after_storing minute.0 (matching key) (record_of kept key.classes.0) t.old) }
{
    let gone = sweep_gone(t, minute, key);
    match find_free(t) {
        Some(place) => {
            put_at(t, place, kept, key.classes);
            Ok(Answer::Stored {
                expired: gone.expired,
                matched: gone.matched,
                place,
            })
        }
        None => take_full(t, kept, key.classes, full),
    }
}

// An ordinary message where no record is free: stored in the place of the one that ends soonest, or refused (14).
fn take_full(t: &mut [u8], kept: Kept, classes: Classes, full: WhenFull) -> Result<Answer, Refusal>
    requires { (length t.old % record_size ≡ 0) × (0 < length t.old / record_size) × (can_make kept classes.0 ≡ true) }
    ensures value { result ≡ must (not (keeps full)) NoRoom (Ok (Dropped (soonest (records t.old)))) }
    ensures t_after { t.new ≡ cond (keeps full) t.old (stored t.old (soonest (records t.old)) (record_of kept classes.0)) }
{
    match full {
        WhenFull::Keep => Err(Refusal::NoRoom),
        WhenFull::Drop => {
            let place = find_soonest(t);
            put_at(t, place, kept, classes);
            Ok(Answer::Dropped { place })
        }
    }
}

// Stores the record of a report in a place.
fn put_at(t: &mut [u8], place: usize, kept: Kept, classes: Classes)
    requires { (length t.old % record_size ≡ 0) × (place < length t.old / record_size) × (can_make kept classes.0 ≡ true) }
    ensures { t.new ≡ stored t.old place (record_of kept classes.0) }
{
    let a = place * Record::SIZE;
    let e = a + Record::SIZE;
    // Nothing is refused of what a record is made of.
    let _made = put(&mut t[a..e], kept, classes);
}
