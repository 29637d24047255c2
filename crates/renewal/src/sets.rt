// The update classes of a record, by the catalogue.
ghost use Rattle.std.specs.Prelude.{◌≡◌};
ghost use Rattle.record.specs.Classes.{set_of};
ghost use Rattle.renewal.specs.Classes.{classes_in};

use classes::of_report;
use record::classes::Classes;
use record_report::read::message_of;

// Those of the report that it reads as; none where it does not read.
#[tactic(auto, unfolding(crate::specs::Classes::classes_in, record::specs::Classes::set_of))]
pub(crate) fn of_record(r: &[u8], catalogue: &[u16]) -> Classes
    ensures { result.0 ≡ set_of (classes_in catalogue.now r.now) }
{
    match message_of(r) {
        Ok(report) => of_report(report, catalogue),
        Err(_) => Classes::new(),
    }
}
