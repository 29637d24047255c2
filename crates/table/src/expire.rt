// Expiry alone.
ghost use Rattle.std.specs.Prelude.{◌≡◌, ◌%◌, length};
ghost use Rattle.record.specs.Layout.{record_size};
ghost use Rattle.table.specs.declared.Answer.TheVariants.{Freed};
ghost use Rattle.table.specs.Steps.{after_expiry, expired_in};
ghost use Rattle.table.specs.Expire.{expire_answer, expire_step, expire_table};

use crate::sweep::sweep_expired;
use crate::{Answer, Step, Table};
use checks::minute_unfit;
use clock::Utc;
use lent::table::table_fits;
use refusal::Refusal;

impl Table {
    // Frees every record whose expiry is at or below the minute. A malformed table is refused (10), then a minute below the last one
    // or too large (13).
    pub fn expire(t: &mut [u8], last: Utc, minute: Utc) -> Step
        ensures value { result ≡ expire_step t.old last.0 minute.0 }
        ensures t_after { t.new ≡ expire_table t.old last.0 minute.0 }
    {
        let answer = expire_after(t, last, minute);
        Step::at(last, minute, answer)
    }
}

// The answer of the call.
#[tactic(auto, using(lent::proofs::Lents::table_whole), unfolding(crate::specs::Expire::expire_answer, crate::specs::Expire::expire_table))]
fn expire_after(t: &mut [u8], last: Utc, minute: Utc) -> Result<Answer, Refusal>
    ensures value { result ≡ expire_answer t.old last.0 minute.0 }
    ensures t_after { t.new ≡ expire_table t.old last.0 minute.0 }
{
    if !table_fits(t) {
        return Err(Refusal::Malformed);
    }
    if minute_unfit(last, minute) {
        return Err(Refusal::WrongMinute);
    }
    Ok(free_expired(t, minute))
}

// Step 1 alone, as a call that is accepted answers it.
pub(crate) fn free_expired(t: &mut [u8], minute: Utc) -> Answer
    requires { length t.old % record_size ≡ 0 }
    ensures value { result ≡ Freed (expired_in minute.0 t.old) 0 }
    ensures t_after { t.new ≡ after_expiry minute.0 t.old }
{
    let expired = sweep_expired(t, minute);
    Answer::Freed {
        expired,
        matched: 0,
    }
}
