// 37-bit words and system words.
ghost use Rattle.std.specs.Prelude.{◌≡◌};
ghost use Rattle.c_answers.specs.Words.{word_parsed, word_composed, system_reading, system_written};

use crate::refusals::refusal_in;
use c_values::systems::SystemFields;
use c_values::words::WordFields;
use refusal::Refusal;
use system::System;
use word::Word;

// A word taken apart; a number that is no word is refused (9).
#[repr(C)]
#[derive(Clone, Copy)]
pub struct WordParsed {
    pub fields: WordFields,
    pub refusal: u8,
}

impl From<Word> for WordParsed {
    ghost from_gives = { λ word told. told ≡ word_parsed word };

    fn from(word: Word) -> Self {
        WordParsed {
            fields: word.into(),
            refusal: match word {
                Word::Beyond(_) => Refusal::Unfit.into(),
                _ => 0,
            },
        }
    }
}

// A word composed.
#[repr(C)]
#[derive(Clone, Copy)]
pub struct WordComposed {
    pub word: u64,
    pub refusal: u8,
}

impl From<Result<u64, Refusal>> for WordComposed {
    ghost from_gives = { λ answer told. told ≡ word_composed answer };

    fn from(answer: Result<u64, Refusal>) -> Self {
        WordComposed {
            word: answer.unwrap_or(0),
            refusal: refusal_in(answer),
        }
    }
}

// A system word read.
#[repr(C)]
#[derive(Clone, Copy)]
pub struct SystemReading {
    pub fields: SystemFields,
    pub refusal: u8,
}

impl From<Result<System, Refusal>> for SystemReading {
    ghost from_gives = { λ answer told. told ≡ system_reading answer };

    fn from(answer: Result<System, Refusal>) -> Self {
        SystemReading {
            fields: match answer {
                Ok(system) => system.into(),
                Err(_) => SystemFields::default(),
            },
            refusal: refusal_in(answer),
        }
    }
}

// A system word written.
#[repr(C)]
#[derive(Clone, Copy)]
pub struct SystemWritten {
    pub word: u16,
    pub refusal: u8,
}

impl From<Result<u16, Refusal>> for SystemWritten {
    ghost from_gives = { λ answer told. told ≡ system_written answer };

    fn from(answer: Result<u16, Refusal>) -> Self {
        SystemWritten {
            word: answer.unwrap_or(0),
            refusal: refusal_in(answer),
        }
    }
}
