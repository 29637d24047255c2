// A record read back.
ghost use Rattle.std.specs.Prelude.{◌≡◌, ◌≤◌, length, take};
ghost use Rattle.bits.specs.Fields.{flat};
ghost use Rattle.std.specs.Prelude.{is_ok};
ghost use Rattle.content.specs.Halves.{bits_of};
ghost use Rattle.content.specs.Packing.{longest};
ghost use Rattle.record.specs.Layout.{record_size, groups_in, content_in};
ghost use Rattle.record.specs.WellFormed.{groups_fit};
ghost use Rattle.record.specs.Gone.{one_record};
ghost use Rattle.record_report.specs.Reads.{message_in, message_of, reading_of, with_real};

use crate::Kept;
use bits::bytes::load;
use content::content::Content;
use record::Record;
use record::fields::{expiry, head, real_location, service};
use record::test::fits;
use refusal::Refusal;
use report::{Report, Unreadable};

// Where the bytes of the content's low half begin, and what brings them to its top: it has room for two bytes more.
const LOW: usize = Record::CONTENT + 8;

const TO_THE_TOP: u64 = 0x1_0000;

// Why there is nothing in bytes that are no record.
const MALFORMED: Unreadable = Unreadable::Refused(Refusal::Malformed);

// What a record keeps beside its classes, or nothing where it is free. Bytes that are not one well-formed record are refused (10), then
// content that does not read as items (7 or 8), with the place in the record's own content.
pub fn read(r: &[u8]) -> Result<Option<Kept>, Unreadable>
    ensures { result ≡ reading_of r.now }
{
    if !fits(r) {
        return Err(MALFORMED);
    }
    if r[Record::MARK] == 0 {
        return Ok(None);
    }
    let report = message(r)?;
    Ok(Some(Kept {
        report,
        service: service(r),
        expiry: expiry(r),
    }))
}

// The report of a record. Bytes that are not one record's, and a record that has not one to five groups, as a free one has not, are refused
// (10), then content that does not read as items (7 or 8).
#[tactic(auto, using(crate::proofs::Readings::has_known), unfolding(crate::specs::Reads::message_of))]
pub fn message_of(r: &[u8]) -> Result<Report, Unreadable>
    ensures { result ≡ message_of r.now }
{
    if !has_groups(r) {
        return Err(MALFORMED);
    }
    message(r)
}

// Whether `message_of` refuses nothing. No report is made for it.
#[tactic(auto, using(crate::proofs::Readings::has_known))]
pub fn reads(r: &[u8]) -> bool
    ensures { result ≡ is_ok (message_of r.now) }
{
    if !has_groups(r) {
        return false;
    }
    let groups = r[Record::GROUPS] as usize;
    groups == 1 || content::read::reads(content(r), Content::GROUP * (groups - 1))
}

// Whether the bytes are one record's, with one to five groups.
#[tactic(auto, unfolding(record::specs::Gone::one_record))]
fn has_groups(r: &[u8]) -> bool
    ensures { result ≡ one_record groups_fit r.now }
{
    if r.len() != Record::SIZE {
        return false;
    }
    let groups = r[Record::GROUPS];
    (1 <= groups) & (groups <= Record::MOST_GROUPS)
}

fn message(r: &[u8]) -> Result<Report, Unreadable>
    requires { (length r.now ≡ record_size) × (1 ≤ groups_in r.now) × (groups_in r.now ≤ 5) }
    ensures { result ≡ message_in r.now }
{
    let groups = r[Record::GROUPS] as usize;
    let head = head(r);
    let real = real_location(r);
    if groups == 1 {
        let single = Report::single(r[Record::DURATION], r[Record::DIVERSION], head);
        Ok(with_real(single, real))
    } else {
        Report::with_items(head, real, content(r), Content::GROUP * (groups - 1))
    }
}

// The report with a real location.
fn with_real(mut report: Report, real: u16) -> Report
    ensures { result ≡ with_real real report }
{
    report.real = real;
    report
}

// The content bits: eight bytes in the high half, and six at the top of the low half.
fn content(r: &[u8]) -> Content
    requires { length r.now ≡ record_size }
    ensures { take longest (bits_of result) ≡ flat 8 (content_in r.now) }
{
    let high = load(&r[Record::CONTENT..LOW]);
    let low = load(&r[LOW..Record::RESERVED]);
    Content {
        high,
        low: low * TO_THE_TOP,
    }
}
