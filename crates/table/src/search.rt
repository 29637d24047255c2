// The place for a report.
ghost use Rattle.std.specs.Prelude.{◌≡◌};
ghost use Rattle.table.specs.Records.{lowest_free};

use record::Record;

// The lowest-numbered free record, if there is one. The rules of the project ask for a search loop here that yields the place by break.
pub(crate) fn find_free(t: &[u8]) -> Option<usize>
    ensures { result ≡ lowest_free t.now }
{
    let n = t.len() / Record::SIZE;
    let mut i = 0;
    loop {
        if i == n {
            break None;
        }
        let a = i * Record::SIZE;
        if t[a] == 0 {
            break Some(i);
        }
        i += 1;
    }
}
