// Passes over the records that free some of them: steps 1 and 2 of a call.
ghost use Rattle.std.specs.Prelude.{◌≡◌, ◌%◌, length};
ghost use Rattle.record.specs.Layout.{record_size};
ghost use Rattle.record.specs.Matching.{matching};
ghost use Rattle.table.specs.Steps.{after_expiry, expired_in, after_matching, matched_in};

use clock::Utc;
use record::freeing::{free_expired, free_gone};
use record::{Freed, Key, Record};

// Frees every record that has expired by the minute, and answers how many there were.
pub(crate) fn sweep_expired(t: &mut [u8], minute: Utc) -> usize
    requires { length t.old % record_size ≡ 0 }
    ensures value { result ≡ expired_in minute.0 t.old }
    ensures t_after { t.new ≡ after_expiry minute.0 t.old }
{
    let mut expired = 0;
    // By places: of what `chunks_exact_mut` lends to be written, a proof knows nothing afterwards.
    for i in 0..t.len() / Record::SIZE {
        let a = i * Record::SIZE;
        let e = a + Record::SIZE;
        expired += free_expired(&mut t[a..e], minute);
    }
    expired
}

// Frees every record that has expired by the minute, and of the others those that match; answers how many there were of each.
pub(crate) fn sweep_gone(t: &mut [u8], minute: Utc, key: Key) -> Freed
    requires { length t.old % record_size ≡ 0 }
    ensures value { result ≡ record { expired = expired_in minute.0 t.old; matched = matched_in minute.0 (matching key) t.old } }
    ensures t_after { t.new ≡ after_matching minute.0 (matching key) t.old }
{
    let records = t.len() / Record::SIZE;
    // The expired records are counted down from all: two counts that go the same way are kept in memory as one vector.
    let mut unexpired = records;
    let mut matched = 0;
    for i in 0..records {
        let a = i * Record::SIZE;
        let e = a + Record::SIZE;
        let freed = free_gone(&mut t[a..e], minute, key);
        unexpired -= freed.expired;
        matched += freed.matched;
    }
    Freed {
        expired: records - unexpired,
        matched,
    }
}
