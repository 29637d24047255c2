// The record to drop.
ghost use Rattle.std.specs.Prelude.{◌≡◌};
ghost use Rattle.lent.specs.Records.{records};
ghost use Rattle.table.specs.Records.{soonest};

use record::Record;
use record::fields::expiry;

// The record that ends soonest, the lowest-numbered on a tie.
pub(crate) fn find_soonest(t: &[u8]) -> usize
    ensures { result ≡ soonest (records t.now) }
{
    let mut place = 0;
    let mut least = u32::MAX;
    for (i, record) in t.chunks_exact(Record::SIZE).enumerate() {
        let end = expiry(record);
        if end.0 < least {
            least = end.0;
            place = i;
        }
    }
    place
}
