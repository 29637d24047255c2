// The sets of a table's records worked out anew, from a changed catalogue.
#![tactic(auto)]

ghost use Rattle.std.specs.Prelude.{◌≡◌, ◌%◌, length};
ghost use Rattle.bits.specs.Bits.{num};
ghost use Rattle.record.specs.Layout.{record_size};
ghost use Rattle.table.specs.Records.{over};
ghost use Rattle.table.specs.Effect.{used, used_in};
ghost use Rattle.renewal.specs.Renewal.{renewed, renew_fits, renew_answer, renew_table};

mod sets;
mod test;

use crate::sets::of_record;
use crate::test::all_classed;
use lent::catalogue::catalogue_fits;
use lent::table::table_fits;
use record::Record;
use refusal::Refusal;

// Works out the set of every used record anew from the catalogue, and answers how many there are. Refused (10): a malformed table or
// catalogue, and a used record whose content does not read as items or whose first event has no update class. A refusal changes nothing.
#[tactic(auto, using(lent::proofs::Lents::table_whole, crate::proofs::Renewals::fits_table), unfolding(crate::specs::Renewal::renew_answer, crate::specs::Renewal::renew_table))]
pub fn renew(t: &mut [u8], catalogue: &[u16]) -> Result<usize, Refusal>
    ensures value { result ≡ renew_answer t.old catalogue.now }
    ensures t_after { t.new ≡ renew_table t.old catalogue.now }
{
    if !can_renew(t, catalogue) {
        return Err(Refusal::Malformed);
    }
    Ok(renew_records(t, catalogue))
}

// Whether nothing is refused. All of it is tested before any record is changed.
#[tactic(auto, unfolding(crate::specs::Renewal::renew_fits))]
fn can_renew(t: &[u8], catalogue: &[u16]) -> bool
    ensures { result ≡ renew_fits t.now catalogue.now }
{
    table_fits(t) && catalogue_fits(catalogue) && all_classed(t, catalogue)
}

// One pass over the records, which answers how many are used.
fn renew_records(t: &mut [u8], catalogue: &[u16]) -> usize
    requires { length t.old % record_size ≡ 0 }
    ensures value { result ≡ used_in t.old }
    ensures t_after { t.new ≡ over (renewed catalogue.now) t.old }
{
    let mut used = 0;
    // By places: of what `chunks_exact_mut` lends to be written, a proof knows nothing afterwards.
    for i in 0..t.len() / Record::SIZE {
        let a = i * Record::SIZE;
        let e = a + Record::SIZE;
        used += renew_record(&mut t[a..e], catalogue);
    }
    used
}

// The set of one record, if it is used; answers how many are.
#[tactic(auto, unfolding(crate::specs::Renewal::renewed, bits::specs::Bits::num))]
fn renew_record(r: &mut [u8], catalogue: &[u16]) -> usize
    requires { length r.old ≡ record_size }
    ensures value { result ≡ num (used r.old) }
    ensures r_after { r.new ≡ renewed catalogue.now r.old }
{
    if r[Record::MARK] == 0 {
        return 0;
    }
    let classes = of_record(r, catalogue);
    classes.put(r);
    1
}
