// Whether the records of a table have update classes.
ghost use Rattle.std.specs.Prelude.{◌≡◌};
ghost use Rattle.record.specs.Gone.{one_record};
ghost use Rattle.renewal.specs.Classes.{classed, all_classed};

use lent::catalogue::Entry;
use record::Record;
use record::fields::event;
use record_report::read::reads;

// Whether every record is free, or has content that reads as items and a first event with an update class.
pub(crate) fn all_classed(t: &[u8], catalogue: &[u16]) -> bool
    ensures { result ≡ all_classed catalogue.now t.now }
{
    for record in t.chunks_exact(Record::SIZE) {
        if !is_classed(record, catalogue) {
            return false;
        }
    }
    true
}

// Whether the bytes are one record's, and it is free, or has content that reads as items and a first event with an update class.
#[tactic(auto, using(record::proofs::AsRecord::as_it_is), unfolding(crate::specs::Classes::classed, record::specs::Gone::one_record))]
fn is_classed(r: &[u8], catalogue: &[u16]) -> bool
    ensures { result ≡ one_record (classed catalogue.now) r.now }
{
    if r.len() != Record::SIZE {
        return false;
    }
    if r[Record::MARK] == 0 {
        return true;
    }
    let entry = Entry::of_event(catalogue, event(r));
    entry.has_class() && reads(r)
}
