// The fields of a record. Bytes that are not one record's are taken for a free record.
ghost use Rattle.std.specs.Prelude.{◌≡◌, ◌+◌, ◌≤◌, length};
ghost use Rattle.record.specs.Layout.{as_record, two_at, four_at, eight_at, expiry_in, location_in, service_in, event_in, head_in, real_in, set_in};

use crate::classes::Classes;
use crate::{Record, Service};
use clock::Utc;
use location::Location;
use word::Head;

// The bytes of a free record.
const FREE: [u8; Record::SIZE] = [0; Record::SIZE];

// The bytes of one record as they are; those of a free record for others.
#[tactic(auto, unfolding(crate::specs::Layout::as_record), using(crate::proofs::AsRecord::as_it_is, crate::proofs::AsRecord::as_free))]
pub(crate) fn as_record(r: &[u8]) -> &[u8; Record::SIZE]
    ensures { result.now ≡ as_record r.now }
{
    match r.as_array() {
        Some(bytes) => bytes,
        None => &FREE,
    }
}

// The number that two bytes are, the first one lowest.
pub(crate) fn two(r: &[u8], at: usize) -> u16
    requires { at + 2 ≤ length r.now }
    ensures { result ≡ two_at r.now at }
{
    u16::from_le_bytes([r[at], r[at + 1]])
}

// The number that four bytes are, the first one lowest.
pub(crate) fn four(r: &[u8], at: usize) -> u32
    requires { at + 4 ≤ length r.now }
    ensures { result ≡ four_at r.now at }
{
    u32::from_le_bytes([r[at], r[at + 1], r[at + 2], r[at + 3]])
}

// The number that eight bytes are, the first one lowest.
pub(crate) fn eight(r: &[u8], at: usize) -> u64
    requires { at + 8 ≤ length r.now }
    ensures { result ≡ eight_at r.now at }
{
    four(r, at) as u64 + 0x1_0000_0000 * four(r, at + 4) as u64
}

// The minute at which the record ends.
pub fn expiry(r: &[u8]) -> Utc
    ensures { result.0 ≡ expiry_in (as_record r.now) }
{
    Utc(four(as_record(r), Record::EXPIRY))
}

pub(crate) fn location(r: &[u8]) -> Location
    ensures { result ≡ location_in (as_record r.now) }
{
    let r = as_record(r);
    Location {
        country: r[Record::LOCATION_COUNTRY],
        ltn: r[Record::LOCATION_LTN],
        code: two(r, Record::LOCATION),
    }
}

pub fn service(r: &[u8]) -> Service
    ensures { result ≡ service_in (as_record r.now) }
{
    let r = as_record(r);
    Service {
        country: r[Record::COUNTRY],
        ltn: r[Record::LTN],
        sid: r[Record::SID],
    }
}

// The first event.
pub fn event(r: &[u8]) -> u16
    ensures { result ≡ event_in (as_record r.now) }
{
    two(as_record(r), Record::EVENT)
}

pub fn head(r: &[u8]) -> Head
    ensures { result ≡ head_in (as_record r.now) }
{
    let bytes = as_record(r);
    Head {
        direction: bytes[Record::DIRECTION],
        extent: bytes[Record::EXTENT],
        event: event(r),
        location: service(r).head_location(location(r)),
    }
}

// The real location: 0 where the location is at home.
pub fn real_location(r: &[u8]) -> u16
    ensures { result ≡ real_in (as_record r.now) }
{
    service(r).real_location(location(r))
}

// The update classes of its events.
pub fn classes(r: &[u8]) -> Classes
    ensures { result.0 ≡ set_in (as_record r.now) }
{
    Classes(eight(as_record(r), Record::CLASSES))
}
