// A record made from a report.
ghost use Rattle.std.specs.Prelude.{◌≡◌, ◌++◌, length};
ghost use Rattle.record.specs.Layout.{record_size, content_in};
ghost use Rattle.record_report.specs.Made.{front_bytes, tail_bytes, location_kept, marks_fit, making_in, bytes_made};

use crate::Kept;
use record::Record;
use record::classes::Classes;
use refusal::Refusal;

// Makes the bytes the record of what is to be kept. Bytes that are not one record's are refused (10), then a report that a writer does not
// take and a service, classes or expiry that no record has (9). A refusal leaves the bytes.
pub fn put(r: &mut [u8], kept: Kept, classes: Classes) -> Result<(), Refusal>
    ensures value { result ≡ making_in r.old kept classes.0 }
    ensures r_after { r.new ≡ bytes_made r.old kept classes.0 }
{
    if r.len() != Record::SIZE {
        return Err(Refusal::Malformed);
    }
    if !marks_fit(kept, classes) {
        return Err(Refusal::Unfit);
    }
    let groups = kept
        .report
        .pack_content(&mut r[Record::CONTENT..Record::RESERVED])?;
    put_fields(r, groups as u8, kept, classes);
    Ok(())
}

// Whether a record may have the service, the classes and the expiry.
fn marks_fit(kept: Kept, classes: Classes) -> bool
    ensures { result ≡ marks_fit kept classes.0 }
{
    kept.service.fits() & (classes.fits() & (1 <= kept.expiry.0))
}

// Every byte but those of the content, from the first to the last, each stored by the name of its place.
fn put_fields(r: &mut [u8], groups: u8, kept: Kept, classes: Classes)
    requires { length r.old ≡ record_size }
    ensures { r.new ≡ front_bytes groups kept (location_kept kept) ++ (content_in r.old ++ tail_bytes kept.service (location_kept kept) classes.0) }
{
    let report = kept.report;
    let service = kept.service;
    let head = report.head;
    let location = service.location_of(report);
    let end = kept.expiry.0;
    r[Record::MARK] = 1;
    r[Record::GROUPS] = groups;
    r[Record::SID] = service.sid;
    r[Record::LTN] = service.ltn;
    r[Record::LOCATION] = (location.code % 0x100) as u8;
    r[Record::LOCATION + 1] = (location.code / 0x100) as u8;
    r[Record::EVENT] = (head.event % 0x100) as u8;
    r[Record::EVENT + 1] = (head.event / 0x100) as u8;
    r[Record::DIRECTION] = head.direction;
    r[Record::EXTENT] = head.extent;
    r[Record::DIVERSION] = report.diversion;
    r[Record::DURATION] = report.duration;
    r[Record::EXPIRY] = (end % 0x100) as u8;
    r[Record::EXPIRY + 1] = (end / 0x100 % 0x100) as u8;
    r[Record::EXPIRY + 2] = (end / 0x1_0000 % 0x100) as u8;
    r[Record::EXPIRY + 3] = (end / 0x100_0000) as u8;
    r[Record::RESERVED] = 0;
    r[Record::COUNTRY] = service.country;
    r[Record::LOCATION_COUNTRY] = location.country;
    r[Record::LOCATION_LTN] = location.ltn;
    classes.put(r);
}
