// The records one by one.
ghost use Rattle.std.specs.Prelude.{◌≡◌};
ghost use Rattle.table.specs.Read.{record_at};

use crate::Table;
use lent::table::table_fits;
use record::Record;
use record_report::Kept;
use record_report::read::read;
use refusal::Refusal;
use report::Unreadable;

impl Table {
    // The report, service and expiry of record i, or that it is free. A malformed table is refused (10), then a place past the last
    // record (9), then content that does not read as items (7 or 8), with the place in the record's own content.
    #[tactic(auto, unfolding(crate::specs::Read::record_at))]
    pub fn read(t: &[u8], i: usize) -> Result<Option<Kept>, Unreadable>
        ensures { result ≡ record_at t.now i }
    {
        if !table_fits(t) {
            return Err(Unreadable::Refused(Refusal::Malformed));
        }
        if t.len() / Record::SIZE <= i {
            return Err(Unreadable::Refused(Refusal::Unfit));
        }
        let a = i * Record::SIZE;
        let e = a + Record::SIZE;
        read(&t[a..e])
    }
}
