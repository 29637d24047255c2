// A data unit read from its bytes: the tests in order, and then the fields and the user words.
// The functions take the bytes, and not a struct that borrows them, whose clauses would have to name a moment at each mention.
ghost use Rattle.std.specs.Prelude.{◌≡◌, ◌+◌, ◌*◌, ◌≤◌, ◌<◌, [], ◌∷◌, length, drop, get_or, Ok};
ghost use Rattle.bits.specs.Bits.{bits, val};
ghost use Rattle.bits.specs.Fields.{flat, unpack, words};
ghost use Rattle.drm.specs.Format.{start_width, start_format, header_width, header_format, system_width};
ghost use Rattle.drm.specs.Payload.{start, tmchi, ua_flag, aid, header_at, header as Payload·header, header_bits, system_count, system_words, words_at, unit_of};
ghost use Rattle.crc.specs.Block.{payload};
ghost use Rattle.drm.specs.Read.{test_fields, test_words, test_payload, test_unit, taken, read_unit, words_after};

use crate::{DataUnit, Reading};
use bits::field::bits_at;
use bits::run::words_at;
use bits::zero::zeros_at;
use crc::block::{CHECK_LENGTH, is_checked};
use lto::{FIELDS, half_hours};
use refusal::Refusal;

impl DataUnit {
    // Reads a unit, and its user words into the first cells of a buffer. Refuses in this order: a length outside 8 to 128, the check
    // word, rfu, another AID, a header without system words, one that does not fit or more than 7 bits left over, padding, too small
    // a buffer. A refusal leaves the buffer as it is.
    #[tactic(auto, unfolding(crate::specs::Read::read_unit, crate::specs::Read::words_after))]
    pub fn read(s: &[u8], out: &mut [u64]) -> Result<Reading, Refusal>
        ensures value { result ≡ read_unit s.now (length out.old) }
        ensures out_after { out.new ≡ words_after result (flat 8 (payload s.now)) out.old }
    {
        test_unit(s, out.len())?;
        let end = s.len() - CHECK_LENGTH;
        Ok(take_payload(&s[..end], out))
    }
}

// Tests the length, the check word, and what stands before it.
#[tactic(auto, unfolding(crate::specs::Read::test_unit))]
fn test_unit(s: &[u8], room: usize) -> Result<(), Refusal>
    ensures { result ≡ test_unit s.now room }
{
    if s.len() < DataUnit::SHORTEST || DataUnit::LONGEST < s.len() {
        return Err(Refusal::WrongLength);
    }
    if !is_checked(s) {
        return Err(Refusal::WrongCheckWord);
    }
    let end = s.len() - CHECK_LENGTH;
    test_payload(&s[..end], room)
}

// Tests the bytes before the check word.
#[tactic(auto, unfolding(crate::specs::Read::test_payload))]
fn test_payload(p: &[u8], room: usize) -> Result<(), Refusal>
    requires { (6 ≤ length p.now) × (length p.now ≤ 126) }
    ensures { result ≡ test_payload (flat 8 p.now) room }
{
    test_fields(p)?;
    test_words(p, first_word(p), room)
}

// Tests rfu, the AID, and that a header has a system word.
#[tactic(auto, using(crate::proofs::Front::second_bit), unfolding(crate::specs::Read::test_fields))]
fn test_fields(p: &[u8]) -> Result<(), Refusal>
    requires { 6 ≤ length p.now }
    ensures { result ≡ test_fields (start (flat 8 p.now)) (aid (flat 8 p.now)) (Payload·header (flat 8 p.now)) }
{
    if bits_at(p, DataUnit::RFU_AT, 1) != 0 {
        return Err(Refusal::Reserved);
    }
    if aid_of(p) != DataUnit::ALERT_C {
        return Err(Refusal::OtherKind);
    }
    if system_count(p) < tmchi(p) as usize {
        return Err(Refusal::Reserved);
    }
    Ok(())
}

// Tests user words from bit at on, the padding after them, and the room for them.
#[tactic(auto, using(crate::proofs::Body::tests, crate::proofs::Body::zeros))]
fn test_words(p: &[u8], at: usize, room: usize) -> Result<(), Refusal>
    requires { length p.now ≤ 126 }
    ensures { result ≡ test_words at (flat 8 p.now) room }
{
    let total = p.len() * 8;
    if total < at {
        return Err(Refusal::WrongLength);
    }
    let left = (total - at) % DataUnit::WIDTH;
    if DataUnit::PADDING < left {
        return Err(Refusal::WrongLength);
    }
    if !zeros_at(p, total - left, left) {
        return Err(Refusal::Reserved);
    }
    if room < (total - at) / DataUnit::WIDTH {
        return Err(Refusal::SmallBuffer);
    }
    Ok(())
}

// TMCHI, 0 where there is no header.
#[tactic(auto, using(crate::proofs::Front::first_bit))]
fn tmchi(p: &[u8]) -> u64
    requires { 6 ≤ length p.now }
    ensures { result ≡ tmchi (flat 8 p.now) }
{
    bits_at(p, 0, 1)
}

// The UA flag, 0 where there is no header.
#[tactic(auto, unfolding(crate::specs::Payload::ua_flag))]
fn ua_flag(p: &[u8]) -> usize
    requires { 6 ≤ length p.now }
    ensures value { result ≡ ua_flag (flat 8 p.now) }
    ensures small { result < 2 }
{
    if tmchi(p) == 0 {
        0
    } else {
        bits_at(p, DataUnit::UA_FLAG_AT, 1) as usize
    }
}

// The application identifier.
#[tactic(auto, unfolding(crate::specs::Payload::aid))]
fn aid_of(p: &[u8]) -> u64
    requires { 6 ≤ length p.now }
    ensures { result ≡ aid (flat 8 p.now) }
{
    if ua_flag(p) == 0 {
        DataUnit::ALERT_C
    } else {
        bits_at(p, DataUnit::UA_DATA_AT, DataUnit::UA_DATA)
    }
}

// The bit at which the fields of the header begin.
fn header_at(p: &[u8]) -> usize
    requires { 6 ≤ length p.now }
    ensures value { result ≡ header_at (flat 8 p.now) }
    ensures early { result ≤ 24 }
{
    DataUnit::UA_DATA_AT + ua_flag(p) * DataUnit::UA_DATA
}

// The fields of the header as one number, 0 where there is none.
#[tactic(auto, using(crate::proofs::Front::no_bits), unfolding(crate::specs::Payload::header_bits))]
fn header_of(p: &[u8]) -> u64
    requires { 6 ≤ length p.now }
    ensures { result ≡ val (header_bits (flat 8 p.now)) }
{
    if tmchi(p) == 0 {
        0
    } else {
        bits_at(p, header_at(p), DataUnit::HEADER)
    }
}

// How many system words there are.
#[tactic(auto, using(crate::proofs::Front::count_in))]
fn system_count(p: &[u8]) -> usize
    requires { 6 ≤ length p.now }
    ensures value { result ≡ system_count (flat 8 p.now) }
    ensures few { result < 4 }
{
    (header_of(p) % 4) as usize
}

// The bit at which the user words begin.
#[tactic(auto, unfolding(crate::specs::Payload::words_at))]
fn first_word(p: &[u8]) -> usize
    requires { 6 ≤ length p.now }
    ensures { result ≡ words_at (flat 8 p.now) }
{
    if tmchi(p) == 0 {
        DataUnit::START
    } else {
        header_at(p) + DataUnit::HEADER + system_count(p) * DataUnit::SYSTEM_WIDTH
    }
}

// The unit, and its user words into the first cells of a buffer.
fn take_payload(p: &[u8], out: &mut [u64]) -> Reading
    requires { (6 ≤ length p.now) × (length p.now ≤ 126) × (test_payload (flat 8 p.now) (length out.old) ≡ Ok tt) }
    ensures value { result ≡ taken (flat 8 p.now) }
    ensures out_after { out.new ≡ words_after (Ok result) (flat 8 p.now) out.old }
{
    let unit = unit_in(p);
    let at = first_word(p);
    let count = (p.len() * 8 - at) / DataUnit::WIDTH;
    words_at(p, at, DataUnit::WIDTH, &mut out[..count]);
    Reading { unit, count }
}

// The unit without its user words.
fn unit_in(p: &[u8]) -> DataUnit
    requires { (6 ≤ length p.now) × (length p.now ≤ 126) × (words_at (flat 8 p.now) ≤ length (flat 8 p.now)) }
    ensures { result ≡ unit_of (start (flat 8 p.now)) (Payload·header (flat 8 p.now)) (system_words (flat 8 p.now)) }
{
    let header = header_of(p);
    let m = system_count(p);
    let at = header_at(p) + DataUnit::HEADER;
    unit_of(
        bits_at(p, 0, DataUnit::START),
        header,
        system_word(p, at, m, 0),
        system_word(p, at, m, 1),
        system_word(p, at, m, 2),
    )
}

// Word i of m words of 16 bits from bit at on, 0 for the others.
fn system_word(p: &[u8], at: usize, m: usize, i: usize) -> u16
    requires { (i < m → at + m * 16 ≤ length p.now * 8) × (i < 3) × (at ≤ 48) }
    ensures { result ≡ get_or (words system_width m (drop at (flat 8 p.now))) i 0 }
{
    if i < m {
        bits_at(p, at + i * DataUnit::SYSTEM_WIDTH, DataUnit::SYSTEM_WIDTH) as u16
    } else {
        0
    }
}

// The unit of a start, a header and system words.
#[tactic(auto, unfolding(crate::specs::Payload::unit_of))]
fn unit_of(start: u64, header: u64, first: u16, second: u16, third: u16) -> DataUnit
    ensures { result ≡ unit_of (unpack start_format (bits start_width start)) (unpack header_format (bits header_width header)) (first ∷ second ∷ third ∷ []) }
{
    DataUnit {
        tmchi: (start / DataUnit::TMCHI_WEIGHT % 2) as u8,
        id: (start % 0x10) as u8,
        services: (header / DataUnit::SERVICES_WEIGHT % 0x10) as u8,
        country: (header / DataUnit::COUNTRY_WEIGHT % 0x10) as u8,
        ecc: (header / DataUnit::ECC_WEIGHT % 0x100) as u8,
        lto: half_hours((header / DataUnit::LTO_WEIGHT % FIELDS) as u8),
        system: (header % 4) as u8,
        first,
        second,
        third,
    }
}
