// The test of a record's bytes.
ghost use Rattle.std.specs.Prelude.{◌≡◌, ◌&&◌, length};
ghost use Rattle.record.specs.Layout.{record_size, is_record};
ghost use Rattle.record.specs.WellFormed.{well_formed};
ghost use Rattle.record.specs.Zeros.{zero_bits, row_of, bytes_zero};

use crate::Record;
use crate::fields::{classes, eight, expiry};

impl Record {
    // The bytes that are tested at a time.
    pub const STEP: usize = 8;

    // The rows of zero bits: one for free records, and one for each number of groups.
    pub const ROWS: usize = Self::MOST_GROUPS as usize + 1;
}

// Where the last of them begin.
const LAST: usize = Record::SIZE - Record::STEP;

// The bits that are zero in each byte: a row for free records, and one for each number of groups.
#[tactic(auto, unfolding(crate::specs::WellFormed::widths, crate::specs::Zeros::spares, crate::specs::Zeros::above, crate::specs::Zeros::zeros_for, crate::specs::Zeros::zero_bits))]
pub fn zero_bits() -> [u8; Record::ROWS * Record::SIZE]
    ensures { result ≡ zero_bits }
{
    *b"\xFF\xFF\xFF\xFF\xFF\xFF\xFF\xFF\xFF\xFF\xFF\xFF\xFF\xFF\xFF\xFF\xFF\xFF\xFF\xFF\xFF\xFF\xFF\xFF\xFF\xFF\xFF\xFF\xFF\xFF\xFF\xFF\xFF\xFF\xFF\xFF\xFF\xFF\xFF\xFF\xFF\xFF\
       \xFE\xF8\xC0\xC0\0\0\0\xF8\xFE\xF8\xFE\xF8\0\0\0\0\xFF\xFF\xFF\xFF\xFF\xFF\xFF\xFF\xFF\xFF\xFF\xFF\xFF\xFF\xFF\xF0\xF0\xC0\0\0\0\0\0\0\0\0\
       \xFE\xF8\xC0\xC0\0\0\0\xF8\xFE\xF8\xFE\xF8\0\0\0\0\0\0\0\x0F\xFF\xFF\xFF\xFF\xFF\xFF\xFF\xFF\xFF\xFF\xFF\xF0\xF0\xC0\0\0\0\0\0\0\0\0\
       \xFE\xF8\xC0\xC0\0\0\0\xF8\xFE\xF8\xFE\xF8\0\0\0\0\0\0\0\0\0\0\0\xFF\xFF\xFF\xFF\xFF\xFF\xFF\xFF\xF0\xF0\xC0\0\0\0\0\0\0\0\0\
       \xFE\xF8\xC0\xC0\0\0\0\xF8\xFE\xF8\xFE\xF8\0\0\0\0\0\0\0\0\0\0\0\0\0\0\x0F\xFF\xFF\xFF\xFF\xF0\xF0\xC0\0\0\0\0\0\0\0\0\
       \xFE\xF8\xC0\xC0\0\0\0\xF8\xFE\xF8\xFE\xF8\0\0\0\0\0\0\0\0\0\0\0\0\0\0\0\0\0\0\xFF\xF0\xF0\xC0\0\0\0\0\0\0\0\0"
}

// Whether the bytes are one well-formed record.
pub fn fits(r: &[u8]) -> bool
    ensures { result ≡ is_record r.now && well_formed r.now }
{
    let zeros = zero_bits();
    for j in (0..Record::SIZE).step_by(Record::STEP) {
        if !bytes_fit(r, &zeros, j) {
            return false;
        }
    }
    true
}

// Whether the eight bytes from byte j on, or the last eight, have zeros where their record's row of `zeros` says. With `zero_bits` a record
// is well-formed if all its bytes have. Bytes that are not one record's have not.
#[tactic(auto, using(crate::proofs::Tested::row_le, crate::proofs::Tested::from_le), unfolding(crate::specs::Zeros::bytes_zero))]
pub fn bytes_fit(r: &[u8], zeros: &[u8; Record::ROWS * Record::SIZE], j: usize) -> bool
    ensures { result ≡ is_record r.now && bytes_zero zeros.now r.now j }
{
    if r.len() != Record::SIZE {
        return false;
    }
    let at = j.min(LAST);
    let row = row_of(r) * Record::SIZE;
    eight(r, at) & eight(zeros, row + at) == 0
}

// The row of a record: its groups; 0 if it is free, and if its groups are not one to five or it has no expiry or no set of classes.
#[tactic(auto, using(crate::proofs::AsRecord::as_it_is), unfolding(crate::specs::Zeros::row_of, crate::specs::WellFormed::complete, crate::specs::WellFormed::marked))]
fn row_of(r: &[u8]) -> usize
    requires { length r.now ≡ record_size }
    ensures { result ≡ row_of r.now }
{
    let groups = r[Record::GROUPS];
    let complete = ((1 <= groups) & (groups <= Record::MOST_GROUPS))
        & ((expiry(r).0 != 0) & classes(r).fits());
    if (r[Record::MARK] != 0) & complete {
        groups as usize
    } else {
        0
    }
}
