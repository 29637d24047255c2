// From a number to the kind and the fields of its word.
ghost use Rattle.std.specs.Prelude.{◌≡◌};
ghost use Rattle.word.specs.Format.{head_fields, later_fields, head_of};
ghost use Rattle.word.specs.Kind.{kind_of, multi_by};

use crate::{Head, Word};

impl Word {
    // What the number stands for as a word.
    #[tactic(auto, using(crate::proofs::Fields::read_fields), unfolding(crate::specs::Kind::kind_of, crate::specs::Kind::kind_by))]
    pub fn parse(n: u64) -> Word
        ensures { result ≡ kind_of n }
    {
        if Word::LIMIT <= n {
            return Word::Beyond(n);
        }
        if n / 0x10_0000_0000 % 2 == 1 {
            return Word::Tuning(n);
        }
        if n / 0x8_0000_0000 % 2 == 1 {
            return Word::Single {
                duration: (n / 0x1_0000_0000 % 8) as u8,
                diversion: (n / 0x8000_0000 % 2) as u8,
                head: head(n),
            };
        }
        multi(n)
    }
}

// What a word with T = 0 and F = 0 stands for.
#[tactic(auto, using(crate::proofs::Fields::read_fields), unfolding(crate::specs::Kind::multi_by))]
fn multi(n: u64) -> Word
    ensures { result ≡ multi_by n (head_fields n) (later_fields n) }
{
    match (n / 0x1_0000_0000 % 8) as u8 {
        0 => Word::Administration(n),
        7 => Word::Index7(n),
        ci if n / 0x8000_0000 % 2 == 1 => Word::First { ci, head: head(n) },
        ci => Word::Later {
            ci,
            second: (n / 0x4000_0000 % 2) as u8,
            gsi: (n / 0x1000_0000 % 4) as u8,
            content: (n % 0x1000_0000) as u32,
        },
    }
}

// Direction, extent, event and location.
#[tactic(auto, using(crate::proofs::Fields::read_fields))]
fn head(n: u64) -> Head
    ensures { result ≡ head_of (head_fields n) }
{
    Head {
        direction: (n / 0x4000_0000 % 2) as u8,
        extent: (n / 0x800_0000 % 8) as u8,
        event: (n / 0x1_0000 % 2048) as u16,
        location: (n % 0x1_0000) as u16,
    }
}
