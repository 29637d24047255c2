// The message table.
ghost use Rattle.std.specs.Prelude.{◌≡◌};
ghost use Rattle.table.specs.Read.{record_at};
ghost use Rattle.table.specs.Expire.{expire_step, expire_table};
ghost use Rattle.renewal.specs.Renewal.{renew_answer, renew_table};
ghost use Rattle.clock.specs.Expiry.{expiry_answer};
ghost use Rattle.record_report.specs.Reads.{reading_of};
ghost use Rattle.c_answers.specs.Tables.{arrival_of, chosen_step, chosen_table, table_answer, renewal_told, record_reading, expiry_told};

use c_answers::tables::{ExpiryAnswer, RecordReading, Renewal, TableAnswer, take};
use c_values::reports::PlainReport;
use checks::Arrival;
use clock::Utc;
use record::Service;
use renewal::renew;
use table::Table;

// Takes a report of a service at a minute, with the choice for a full table. The location of an INTER-ROAD report is the real one, in the
// table of its FLT code.
#[unsafe(no_mangle)]
pub extern "C" fn alertc_table_take(
    table: &mut [u8],
    catalogue: &[u16],
    lives: &[u16],
    clock: &mut u32,
    report: PlainReport,
    service: Service,
    minute: u32,
    lto: i8,
    choice: u8,
) -> TableAnswer
    ensures value { result ≡ table_answer (chosen_step table.old catalogue.now lives.now clock.old (arrival_of report service minute) lto choice).answer }
    ensures table_after { table.new ≡ chosen_table table.old catalogue.now lives.now clock.old (arrival_of report service minute) lto choice }
    ensures clock_after { clock.new ≡ (chosen_step table.old catalogue.now lives.now clock.old (arrival_of report service minute) lto choice).last.0 }
{
    let arrival = Arrival {
        report: report.into(),
        service,
        minute: Utc(minute),
    };
    let step = take(table, catalogue, lives, Utc(*clock), arrival, lto, choice);
    *clock = step.last.0;
    TableAnswer::from(step.answer)
}

// Frees the records that expire at or before a minute.
#[unsafe(no_mangle)]
pub extern "C" fn alertc_table_expire(table: &mut [u8], clock: &mut u32, minute: u32) -> TableAnswer
    ensures value { result ≡ table_answer (expire_step table.old clock.old minute).answer }
    ensures table_after { table.new ≡ expire_table table.old clock.old minute }
    ensures clock_after { clock.new ≡ (expire_step table.old clock.old minute).last.0 }
{
    let step = Table::expire(table, Utc(*clock), Utc(minute));
    *clock = step.last.0;
    TableAnswer::from(step.answer)
}

// Works out the update classes of every used record anew from a changed catalogue.
#[unsafe(no_mangle)]
pub extern "C" fn alertc_table_renew(table: &mut [u8], catalogue: &[u16]) -> Renewal
    ensures value { result ≡ renewal_told (renew_answer table.old catalogue.now) }
    ensures table_after { table.new ≡ renew_table table.old catalogue.now }
{
    Renewal::from(renew(table, catalogue))
}

// Reads the record at a place. One of a foreign location gives an FLT code and the real location.
#[unsafe(no_mangle)]
pub extern "C" fn alertc_table_read(table: &[u8], place: usize) -> RecordReading
    ensures { result ≡ record_reading (record_at table.now place) }
{
    RecordReading::from(Table::read(table, place))
}

// Reads the bytes of one record, in the same way.
#[unsafe(no_mangle)]
pub extern "C" fn alertc_record_read(bytes: &[u8]) -> RecordReading
    ensures { result ≡ record_reading (reading_of bytes.now) }
{
    RecordReading::from(record_report::read::read(bytes))
}

// The minute at which a report of this life, taken at this minute, expires.
#[unsafe(no_mangle)]
pub extern "C" fn alertc_expiry(minute: u32, lto: i8, life: u16) -> ExpiryAnswer
    ensures { result ≡ expiry_told (expiry_answer minute lto life) }
{
    ExpiryAnswer::from(Utc(minute).expiry(lto, life))
}
