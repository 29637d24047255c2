// A data unit written into a lent buffer.
#![tactic(auto)]

ghost use Rattle.std.specs.Prelude.{◌≡◌, length};
ghost use Rattle.drm_write.specs.Write.{write_unit, bytes_after};

use crate::fill::fill;
use crate::fits::{can_write, unit_length};
use drm::DataUnit;
use refusal::Refusal;

mod fill;
mod fits;

// Writes a unit with these user words into the first cells of a buffer, and gives its length. A field out of its range, a unit that is
// too long and words that are not whole messages are refused, then too small a buffer; a refusal leaves the buffer as it is.
#[tactic(auto, unfolding(crate::specs::Write::write_unit, crate::specs::Write::bytes_after))]
pub fn write(unit: DataUnit, words: &[u64], out: &mut [u8]) -> Result<usize, Refusal>
    ensures value { result ≡ write_unit unit words.now (length out.old) }
    ensures out_after { out.new ≡ bytes_after result unit words.now out.old }
{
    if !can_write(unit, words) {
        return Err(Refusal::Unfit);
    }
    let end = unit_length(unit, words.len());
    if out.len() < end {
        return Err(Refusal::SmallBuffer);
    }
    fill(&mut out[..end], unit, words);
    Ok(end)
}
