// The bytes of a unit.
ghost use Rattle.std.specs.Prelude.{◌≡◌, true, ◌+◌, ◌*◌, ◌/◌, ◌≤◌, length, IsSome};
ghost use Rattle.bits.specs.Bits.{val};
ghost use Rattle.bits.specs.Fields.{flat, fits as Fields·fits, words as Fields·words};
ghost use Rattle.drm.specs.Format.{start_format, header_format};
ghost use Rattle.lto.specs.Offset.{lto_field as Offset·lto_field};
ghost use Rattle.drm_write.specs.Write.{start_values, header_values, system_fields, payload_length, unit_length, unit_fits, front_bits, laid, payload_bits, unit_bytes};

use crate::fits::front_width;
use bits::bytes::pow2;
use bits::field::put_bits;
use bits::run::put_words;
use crc::block::{CHECK_LENGTH, put_check};
use drm::DataUnit;
use lto::lto_field;

// What one of Short ID counts before rfa, the UA flag and a header's fields, and what TMCHI = 1 does.
const ID_WEIGHT: u64 = 0x400_0000;

const TMCHI: u64 = DataUnit::TMCHI_WEIGHT * ID_WEIGHT;
// The bits of all system words that a unit may have.
const SYSTEM_BITS: usize = DataUnit::SYSTEM_WORDS as usize * DataUnit::SYSTEM_WIDTH;

// Fills s with the unit.
pub(crate) fn fill(s: &mut [u8], unit: DataUnit, words: &[u64])
    requires { (unit_fits unit (length words.now) ≡ true) × (length s.old ≡ unit_length unit (length words.now)) }
    ensures { s.new ≡ unit_bytes unit words.now }
{
    let end = s.len() - CHECK_LENGTH;
    fill_payload(&mut s[..end], unit, words);
    put_check(s);
}

// Fills s with the unit's bytes before the check word.
fn fill_payload(s: &mut [u8], unit: DataUnit, words: &[u64])
    requires { (unit_fits unit (length words.now) ≡ true) × (length s.old ≡ payload_length unit (length words.now)) }
    ensures { s.new ≡ Fields·words 8 (length s.old) (payload_bits unit words.now) }
{
    let system = unit.system as usize * DataUnit::SYSTEM_WIDTH;
    let messages = system_number(unit) / pow2(SYSTEM_BITS - system);
    lay(
        s,
        front_width(unit),
        front_number(unit),
        system,
        messages,
        words,
    );
}

// The start and, with a header, its fields, as one number.
fn front_number(unit: DataUnit) -> u64
    requires { (Fields·fits start_format (start_values unit) ≡ true) × (Fields·fits header_format (header_values unit) ≡ true) × IsSome (Offset·lto_field unit.lto) }
    ensures { result ≡ val (front_bits unit) }
{
    if unit.tmchi == 0 {
        unit.id as u64
    } else {
        TMCHI
            + unit.id as u64 * ID_WEIGHT
            + unit.services as u64 * DataUnit::SERVICES_WEIGHT
            + unit.country as u64 * DataUnit::COUNTRY_WEIGHT
            + unit.ecc as u64 * DataUnit::ECC_WEIGHT
            + lto_field(unit.lto).unwrap() * DataUnit::LTO_WEIGHT
            + unit.system as u64
    }
}

// The system words as one number, the first highest.
fn system_number(unit: DataUnit) -> u64
    ensures { result ≡ val (flat 16 (system_fields unit)) }
{
    unit.first as u64 * 0x1_0000_0000 + unit.second as u64 * 0x1_0000 + unit.third as u64
}

// Fills s with the low bits of two numbers, the user words, and the zeros after them.
fn lay(s: &mut [u8], front: usize, head: u64, system: usize, messages: u64, words: &[u64])
    requires { (front ≤ 32) × (system ≤ 48) × (length s.old ≤ 126) × (length s.old ≡ (front + system + length words.now * 37 + 7) / 8) }
    ensures { s.new ≡ Fields·words 8 (length s.old) (laid front head system messages words.now) }
{
    put_bits(s, 0, front, head);
    put_bits(s, front, system, messages);
    let at = front + system;
    put_words(s, at, DataUnit::WIDTH, words);
    let used = at + words.len() * DataUnit::WIDTH;
    put_bits(s, used, s.len() * 8 - used, 0);
}
