// Freeing a record that has expired or that matches a report.
ghost use Rattle.std.specs.Prelude.{◌≡◌};
ghost use Rattle.bits.specs.Bits.{num};
ghost use Rattle.record.specs.Matching.{matching};
ghost use Rattle.record.specs.Gone.{expired, either, only_second, freed_if, one_record};

use crate::fields::{as_record, expiry};
use crate::matching::matches;
use crate::{Freed, Key, Record};
use clock::Utc;

// Frees the record if it has expired by the minute, and answers how many were freed. Leaves bytes that are not one record's.
#[tactic(auto, using(crate::proofs::Steps::cleared), unfolding(crate::specs::Gone::freed_if, bits::specs::Bits::num))]
pub fn free_expired(r: &mut [u8], minute: Utc) -> usize
    ensures value { result ≡ num (one_record (expired minute.0) r.old) }
    ensures r_after { r.new ≡ freed_if (one_record (expired minute.0)) r.old }
{
    if !has_expired(r, minute) {
        return 0;
    }
    r.fill(0);
    1
}

// Frees the record if it has expired by the minute, and else if it matches; answers how many were freed by each. Leaves bytes that are not
// one record's.
#[tactic(auto, using(crate::proofs::Steps::cleared, crate::proofs::Steps::only, crate::proofs::Steps::or_other), unfolding(crate::specs::Gone::freed_if, bits::specs::Bits::num))]
pub fn free_gone(r: &mut [u8], minute: Utc, key: Key) -> Freed
    ensures value { result ≡ record { expired = num (one_record (expired minute.0) r.old); matched = num (one_record (only_second (expired minute.0) (matching key)) r.old) } }
    ensures r_after { r.new ≡ freed_if (one_record (either (expired minute.0) (matching key))) r.old }
{
    if has_expired(r, minute) {
        r.fill(0);
        return Freed {
            expired: 1,
            matched: 0,
        };
    }
    if matches(r, key) {
        r.fill(0);
        return Freed {
            expired: 0,
            matched: 1,
        };
    }
    Freed::default()
}

// Whether the bytes are one record's that is used and ends at or before the minute.
#[tactic(auto, using(crate::proofs::AsRecord::one_as_record), unfolding(crate::specs::Gone::expired))]
fn has_expired(r: &[u8], minute: Utc) -> bool
    ensures { result ≡ one_record (expired minute.0) r.now }
{
    (as_record(r)[Record::MARK] != 0) & (expiry(r).0 <= minute.0)
}
