// A type 8A group as eight bytes: four blocks, the high byte of each first.
ghost use Rattle.std.specs.Prelude.{◌≡◌, true, length};
ghost use Rattle.bits.specs.Bits.{val};
ghost use Rattle.bits.specs.Fields.{pack, fits};
ghost use Rattle.rds.specs.Format.{group_format, group_values, empty_group};
ghost use Rattle.rds.specs.Read.{read_group};
ghost use Rattle.rds.specs.Write.{write_group, buffer_after};

use crate::Group;
use bits::bytes::{load, store};
use refusal::Refusal;

// What one of a field counts in the 64 bits of a group, by the bits after it. PTY, which the word follows, counts Group::WORD_LIMIT.
const PI_WEIGHT: u64 = 0x1_0000_0000_0000;

const TYPE_WEIGHT: u64 = 0x1000_0000_0000;

const TYPE_8A: u64 = Group::TYPE * TYPE_WEIGHT;

const VERSION_WEIGHT: u64 = 0x800_0000_0000;

const TP_WEIGHT: u64 = 0x400_0000_0000;

impl Group {
    // The bytes of a group.
    pub const LENGTH: usize = 8;
    // The group type; its version is 0.
    pub const TYPE: u64 = 8;
    // Programme types and words are below these.
    pub const PROGRAMME_TYPES: u8 = 32;

    pub const WORD_LIMIT: u64 = 0x20_0000_0000;

    // The empty group: no programme, word 0.
    pub fn new() -> Self
        ensures { result ≡ empty_group }
    {
        Group {
            pi: 0,
            tp: 0,
            pty: 0,
            word: 0,
        }
    }

    // Reads a group. Another length is refused (1), then another type or version (2).
    #[tactic(auto, using(crate::proofs::Blocks::by_division))]
    pub fn read(s: &[u8]) -> Result<Group, Refusal>
        ensures { result ≡ read_group s.now }
    {
        if s.len() != Group::LENGTH {
            return Err(Refusal::WrongLength);
        }
        let n = load(s);
        if n / TYPE_WEIGHT % 16 != Group::TYPE || n / VERSION_WEIGHT % 2 != 0 {
            return Err(Refusal::OtherKind);
        }
        Ok(Group {
            pi: (n / PI_WEIGHT % 0x1_0000) as u16,
            tp: (n / TP_WEIGHT % 2) as u8,
            pty: (n / Group::WORD_LIMIT % 32) as u8,
            word: n % Group::WORD_LIMIT,
        })
    }

    // Writes a group into the first cells of a buffer. A field or word out of its range is refused (9), then too small a
    // buffer (15); a refusal leaves the buffer as it is.
    #[tactic(auto, unfolding(crate::specs::Write::write_group, crate::specs::Write::buffer_after))]
    pub fn write(self, out: &mut [u8]) -> Result<(), Refusal>
        ensures value { result ≡ write_group self (length out.old) }
        ensures out_after { out.new ≡ buffer_after self out.old }
    {
        if !group_fits(self) {
            return Err(Refusal::Unfit);
        }
        if out.len() < Group::LENGTH {
            return Err(Refusal::SmallBuffer);
        }
        store(&mut out[..Group::LENGTH], group_number(self));
        Ok(())
    }
}

// Whether the fields and the word are in their ranges.
#[tactic(auto, unfolding(bits::specs::Fields::fits))]
fn group_fits(g: Group) -> bool
    ensures { result ≡ fits group_format (group_values g) }
{
    g.tp < 2 && g.pty < Group::PROGRAMME_TYPES && g.word < Group::WORD_LIMIT
}

// The 64 bits of a group as a number.
#[tactic(auto, using(crate::proofs::Blocks::sum_is, crate::proofs::Blocks::sum_lt))]
fn group_number(g: Group) -> u64
    requires { fits group_format (group_values g) ≡ true }
    ensures { result ≡ val (pack group_format (group_values g)) }
{
    let high = g.pi as u64 * PI_WEIGHT + TYPE_8A;
    high + g.tp as u64 * TP_WEIGHT + g.pty as u64 * Group::WORD_LIMIT + g.word
}
