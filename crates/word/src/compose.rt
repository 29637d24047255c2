// From the kind and the fields of a word to its number.
ghost use Rattle.std.specs.Prelude.{◌≡◌, true, ◌&&◌};
ghost use Rattle.bits.specs.Bits.{val};
ghost use Rattle.bits.specs.Fields.{pack, fits};
ghost use Rattle.word.specs.Format.{head_part, head_format, later_format};
ghost use Rattle.word.specs.Compose.{composed, head_values, single_values, first_values, later_values, is_index};

use crate::{Head, Word};
use refusal::Refusal;

impl Word {
    // The word of this kind with these fields. Refuses (9) what no word has: a field out of its range, a whole word of
    // another kind, a number of 2^37 or more.
    #[tactic(auto, unfolding(crate::specs::Compose::composed))]
    pub fn compose(self) -> Result<u64, Refusal>
        ensures { result ≡ composed self }
    {
        match self {
            Word::Single {
                duration,
                diversion,
                head,
            } if single_fits(duration, diversion, head) => {
                Ok(single_number(duration, diversion, head))
            }
            Word::First { ci, head } if first_fits(ci, head) => Ok(first_number(ci, head)),
            Word::Later {
                ci,
                second,
                gsi,
                content,
            } if later_fits(ci, second, gsi, content) => {
                Ok(later_number(ci, second, gsi, content))
            }
            Word::Tuning(n) if n / 0x10_0000_0000 == 1 => Ok(n),
            Word::Administration(n) if n / 0x1_0000_0000 == 0 => Ok(n),
            Word::Index7(n) if n / 0x1_0000_0000 == 7 => Ok(n),
            _ => Err(Refusal::Unfit),
        }
    }
}

// Whether a continuity index is one of a multi-group message.
#[tactic(auto, unfolding(crate::specs::Compose::is_index))]
pub fn is_index(ci: u8) -> bool
    ensures { result ≡ is_index ci }
{
    (1..=Word::LAST_INDEX).contains(&ci)
}

// Whether a head's fields are in their ranges.
#[tactic(auto, unfolding(bits::specs::Fields::fits))]
pub fn head_fits(h: Head) -> bool
    ensures { result ≡ fits head_part (head_values h) }
{
    h.direction < 2 && h.extent < 8 && h.event < 2048
}

// Whether the fields of a single-group message are in their ranges.
#[tactic(auto, unfolding(bits::specs::Fields::fits))]
pub fn single_fits(duration: u8, diversion: u8, head: Head) -> bool
    ensures { result ≡ fits head_format (single_values duration diversion head) }
{
    duration < 8 && diversion < 2 && head_fits(head)
}

// Whether the fields of a first group are in their ranges.
#[tactic(auto, unfolding(bits::specs::Fields::fits, crate::specs::Compose::is_index))]
fn first_fits(ci: u8, head: Head) -> bool
    ensures { result ≡ is_index ci && fits head_format (first_values ci head) }
{
    is_index(ci) && head_fits(head)
}

// Whether the fields of a later group are in their ranges.
#[tactic(auto, unfolding(bits::specs::Fields::fits, crate::specs::Compose::is_index))]
fn later_fits(ci: u8, second: u8, gsi: u8, content: u32) -> bool
    ensures { result ≡ is_index ci && fits later_format (later_values ci second gsi content) }
{
    is_index(ci) && second < 2 && gsi < 4 && content < 0x1000_0000
}

// The bits of a head.
#[tactic(auto, using(crate::proofs::Fields::written_fields))]
fn head_number(h: Head) -> u64
    requires { fits head_part (head_values h) ≡ true }
    ensures { result ≡ val (pack head_part (head_values h)) }
{
    h.direction as u64 * 0x4000_0000
        + h.extent as u64 * 0x800_0000
        + h.event as u64 * 0x1_0000
        + h.location as u64
}

// The word of a single-group message.
#[tactic(auto, using(crate::proofs::Fields::written_fields), unfolding(bits::specs::Fields::fits))]
pub fn single_number(duration: u8, diversion: u8, head: Head) -> u64
    requires { fits head_format (single_values duration diversion head) ≡ true }
    ensures { result ≡ val (pack head_format (single_values duration diversion head)) }
{
    0x8_0000_0000
        + duration as u64 * 0x1_0000_0000
        + diversion as u64 * 0x8000_0000
        + head_number(head)
}

// The word of a first group.
#[tactic(auto, using(crate::proofs::Fields::written_fields), unfolding(bits::specs::Fields::fits))]
pub fn first_number(ci: u8, head: Head) -> u64
    requires { fits head_format (first_values ci head) ≡ true }
    ensures { result ≡ val (pack head_format (first_values ci head)) }
{
    ci as u64 * 0x1_0000_0000 + 0x8000_0000 + head_number(head)
}

// The word of a later group.
#[tactic(auto, using(crate::proofs::Fields::written_fields))]
pub fn later_number(ci: u8, second: u8, gsi: u8, content: u32) -> u64
    requires { fits later_format (later_values ci second gsi content) ≡ true }
    ensures { result ≡ val (pack later_format (later_values ci second gsi content)) }
{
    ci as u64 * 0x1_0000_0000
        + second as u64 * 0x4000_0000
        + gsi as u64 * 0x1000_0000
        + content as u64
}
