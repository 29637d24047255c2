// Whether a record matches a report.
ghost use Rattle.std.specs.Prelude.{◌≡◌};
ghost use Rattle.record.specs.Matching.{matching};
ghost use Rattle.record.specs.Gone.{one_record};

use crate::fields::{as_record, classes, location, service, two};
use crate::{Key, Record};

// Whether the bytes are one record's that is used, of the same service, location and direction, and shares an update class. The codes of
// most locations differ, so they are compared first.
pub(crate) fn matches(r: &[u8], key: Key) -> bool
    ensures { result ≡ one_record (matching key) r.now }
{
    let bytes = as_record(r);
    if two(bytes, Record::LOCATION) != key.location.code {
        return false;
    }
    (bytes[Record::MARK] != 0)
        & (service(r) == key.service)
        & (location(r) == key.location)
        & (bytes[Record::DIRECTION] == key.direction)
        & key.classes.meets(classes(r))
}
