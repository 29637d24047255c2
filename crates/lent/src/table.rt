// Whether a table is well-formed.
ghost use Rattle.std.specs.Prelude.{◌≡◌, ◌%◌, length};
ghost use Rattle.record.specs.Layout.{record_size};
ghost use Rattle.record.specs.WellFormed.{well_formed};
ghost use Rattle.lent.specs.Records.{records, all_of};
ghost use Rattle.lent.specs.Table.{table_fits};

use crate::Lent;
use record::Record;
use record::test::{bytes_fit, zero_bits};

// Whether the bytes are 1 to 1,024 well-formed records.
#[tactic(auto, unfolding(crate::specs::Table::table_fits, crate::specs::Table::sized))]
pub fn table_fits(t: &[u8]) -> bool
    ensures { result ≡ table_fits t.now }
{
    let size = t.len();
    let sized = (Record::SIZE <= size)
        & ((size <= Lent::RECORDS * Record::SIZE) & (size % Record::SIZE == 0));
    sized && records_fit(t)
}

// Whether every record is well-formed: all its bytes have zeros where they must, eight bytes at a time. The first that have not end both loops.
fn records_fit(t: &[u8]) -> bool
    requires { length t.now % record_size ≡ 0 }
    ensures { result ≡ all_of well_formed (records t.now) }
{
    let zeros = zero_bits();
    let mut fit = true;
    'records: for r in t.chunks_exact(Record::SIZE) {
        for j in (0..Record::SIZE).step_by(Record::STEP) {
            if !bytes_fit(r, &zeros, j) {
                fit = false;
                break 'records;
            }
        }
    }
    fit
}
