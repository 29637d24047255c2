// What the rows of the one table say, whatever their values.
ghost use Rattle.std.specs.Prelude.{◌≡◌, ◌<◌, ◌^◌};
ghost use Rattle.labels.specs.Rows.{row_count};
ghost use Rattle.telephone.specs.Meaning.{value_width, sign_of, meaning_with};

use crate::Meaning;

// An item of labels 0 to 14, or a part of a telephone reference.
#[derive(Clone, Copy, Debug, PartialEq, Eq)]
pub(crate) enum Sign {
    Item,
    // A reference begins.
    Reference,
    // In ASCII: what is shown, and what is dialled, 0 for nothing.
    Character { shown: u8, dialled: u8 },
    // Options follow.
    Options,
    // Letters or numbers follow.
    Switch,
    // The number ends.
    End,
    Cost,
    Currency,
}

// The characters of Table 2 from code 0 on, which are dialled as they are shown.
const DIGITS: [u8; 13] = *b"0123456789+#*";

// The characters of Table 3 from code 1 on, and their keys.
const LETTERS: [u8; 28] = *b"ABCDEFGHIJKLMNOPQRSTUVWXYZ -";

const KEYS: [u8; 28] = *b"22233344455566677778889999\0\0";

// A cost is 14 bits, after the multiplier; a currency is 8, after the position.
const COSTS: u16 = 1 << 14;

const CURRENCIES: u16 = 1 << 8;

impl Sign {
    // What a row says.
    #[tactic(auto, unfolding(crate::specs::Meaning::sign_of, crate::specs::Keys::keys, crate::specs::Keys::letter_key, labels::specs::Telephone::number_codes, labels::specs::Telephone::letter_codes))]
    pub(crate) fn of_row(row: u16) -> Self
        requires { row < row_count }
        ensures { result ≡ sign_of row }
    {
        match row {
            0..=14 => Sign::Item,
            15 => Sign::Reference,
            16..=28 => {
                let digit = DIGITS[row as usize - 16];
                Sign::Character {
                    shown: digit,
                    dialled: digit,
                }
            }
            29 => Sign::Switch,
            30 => Sign::Options,
            31 => Sign::End,
            32 => Sign::Switch,
            33..=60 => {
                let letter = row as usize - 33;
                Sign::Character {
                    shown: LETTERS[letter],
                    dialled: KEYS[letter],
                }
            }
            61..=62 => Sign::Options,
            63 => Sign::End,
            64 => Sign::Cost,
            _ => Sign::Currency,
        }
    }

    // What it means with a value of its width.
    pub(crate) fn with(self, value: u16) -> Meaning
        requires { value < 2 ^ value_width self }
        ensures { result ≡ meaning_with self value }
    {
        match self {
            Sign::Item => Meaning {
                kind: 1,
                ..Meaning::default()
            },
            Sign::Reference => Meaning {
                kind: 2,
                sublabel: value as u8,
                ..Meaning::default()
            },
            Sign::Character { shown, dialled } => Meaning {
                kind: 3,
                character: shown,
                dialled,
                ..Meaning::default()
            },
            Sign::Options => Meaning {
                kind: 4,
                ..Meaning::default()
            },
            Sign::Switch => Meaning {
                kind: 5,
                ..Meaning::default()
            },
            Sign::End => Meaning {
                kind: 6,
                unit: value as u8,
                ..Meaning::default()
            },
            Sign::Cost => Meaning {
                kind: 7,
                multiplier: (value / COSTS) as u8,
                cost: value % COSTS,
                ..Meaning::default()
            },
            Sign::Currency => Meaning {
                kind: 8,
                position: (value / CURRENCIES) as u8,
                currency: (value % CURRENCIES) as u8,
                ..Meaning::default()
            },
        }
    }
}
