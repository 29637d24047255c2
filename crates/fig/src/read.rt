// A FIG 5/1 read from its bytes: the checks in order, and then the words.
ghost use Rattle.std.specs.Prelude.{◌≡◌, ◌<◌, ◌≤◌, length, drop};
ghost use Rattle.bits.specs.Bits.{bits};
ghost use Rattle.bits.specs.Fields.{unpack};
ghost use Rattle.fig.specs.Format.{header_length, fig_format};
ghost use Rattle.fig.specs.Read.{fields, fig_of, check_fields, check_head, check_data, read_data, read_fig, words_after};

use crate::{Fig, Reading};
use bits::bytes::load;
use bits::run::words_at;
use bits::zero::zeros_at;
use refusal::Refusal;

impl Fig {
    // Reads a FIG, and its words into the first cells of a buffer. Refuses in this order: a length outside 2 to 30 (1), another
    // type (2), bytes not counted (1), another extension (2), D2 (3), no words or bytes left over (1), padding (3), too small a
    // buffer (15). A refusal leaves the buffer as it is.
    #[tactic(auto, using(crate::proofs::Header::length_fits, crate::proofs::Answers::data_part), unfolding(crate::specs::Read::read_fig, crate::specs::Read::words_after))]
    pub fn read(s: &[u8], out: &mut [u64]) -> Result<Reading, Refusal>
        ensures value { result ≡ read_fig s.now (length out.old) }
        ensures out_after { out.new ≡ words_after result (drop header_length s.now) out.old }
    {
        check_head(s)?;
        read_data(fig_of(s), &s[Fig::HEADER..], out)
    }
}

// Reads the words of a FIG from its data bytes.
#[tactic(auto, using(crate::proofs::Data::width_bounds, crate::proofs::Data::room, crate::proofs::Data::lent, crate::proofs::Data::all_bits), unfolding(crate::specs::Read::read_data, crate::specs::Read::words_after))]
fn read_data(fig: Fig, bytes: &[u8], out: &mut [u64]) -> Result<Reading, Refusal>
    requires { length bytes.now ≤ 28 }
    ensures value { result ≡ read_data fig bytes.now (length out.old) }
    ensures out_after { out.new ≡ words_after result bytes.now out.old }
{
    let w = fig.width();
    check_data(bytes, w, out.len())?;
    let count = bytes.len() * 8 / w;
    words_at(bytes, 0, w, &mut out[..count]);
    Ok(Reading { fig, count })
}

// Checks the length and the header.
#[tactic(auto, using(crate::proofs::Header::fields_of), unfolding(crate::specs::Read::check_head))]
fn check_head(s: &[u8]) -> Result<(), Refusal>
    ensures { result ≡ check_head s.now }
{
    if s.len() < Fig::HEADER || Fig::LONGEST < s.len() {
        return Err(Refusal::WrongLength);
    }
    check_fields(load(&s[..Fig::HEADER]), s.len() - 1)
}

// Checks a header after whose first byte so many follow.
#[tactic(auto, using(crate::proofs::Header::checks_of))]
fn check_fields(header: u64, following: usize) -> Result<(), Refusal>
    ensures { result ≡ check_fields following (unpack fig_format (bits 16 header)) }
{
    if header / Fig::TYPE_WEIGHT % 8 != Fig::TYPE {
        return Err(Refusal::OtherKind);
    }
    if (header / Fig::COUNT_WEIGHT % 32) as usize != following {
        return Err(Refusal::WrongLength);
    }
    if header % 8 != Fig::EXTENSION {
        return Err(Refusal::OtherKind);
    }
    if header / Fig::D2_WEIGHT % 2 != 0 {
        return Err(Refusal::Reserved);
    }
    Ok(())
}

// D1 and TCId.
#[tactic(auto, using(crate::proofs::Header::fig_at))]
fn fig_of(s: &[u8]) -> Fig
    requires { 2 ≤ length s.now }
    ensures { result ≡ fig_of (fields s.now) }
{
    let header = load(&s[..Fig::HEADER]);
    Fig {
        d1: (header / Fig::D1_WEIGHT % 2) as u8,
        tcid: (header / Fig::TCID_WEIGHT % 8) as u8,
    }
}

// Checks data bytes with words of w bits.
#[tactic(auto, using(crate::proofs::Data::checks, crate::proofs::Data::all_bits))]
fn check_data(bytes: &[u8], w: usize, room: usize) -> Result<(), Refusal>
    requires { (0 < w) × (length bytes.now ≤ 28) }
    ensures { result ≡ check_data w bytes.now room }
{
    let words = bytes.len() * 8 / w;
    let used = words * w;
    let left = bytes.len() * 8 % w;
    if words < 1 || Fig::PADDING < left {
        return Err(Refusal::WrongLength);
    }
    if !zeros_at(bytes, used, left) {
        return Err(Refusal::Reserved);
    }
    if room < words {
        return Err(Refusal::SmallBuffer);
    }
    Ok(())
}
