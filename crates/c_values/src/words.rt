// 37-bit words.
ghost use Rattle.std.specs.Prelude.{◌≡◌};
ghost use Rattle.c_values.specs.Words.{fields_of, word_by, word_from, word_or_none};

use refusal::Refusal;
use word::{Head, Word};

// The kind of a word, 0 single group, 1 first group, 2 later group, 3 tuning, 4 administration, 5 index 7, and its fields: 0 where the kind has
// no such field.
#[repr(C)]
#[derive(Clone, Copy, Default, PartialEq, Eq)]
pub struct WordFields {
    pub word: u64,
    pub content: u32,
    pub head: Head,
    pub duration: u8,
    pub diversion: u8,
    pub ci: u8,
    pub second: u8,
    pub gsi: u8,
    pub kind: u8,
}

// The fields of a word; of a number that is no word all are 0.
impl From<Word> for WordFields {
    ghost from_gives = { λ word fields. fields ≡ fields_of word };

    #[tactic(auto, unfolding(crate::specs::Words::fields_of))]
    fn from(word: Word) -> Self {
        match word {
            Word::Single {
                duration,
                diversion,
                head,
            } => WordFields {
                head,
                duration,
                diversion,
                ..WordFields::default()
            },
            Word::First { ci, head } => WordFields {
                head,
                ci,
                kind: 1,
                ..WordFields::default()
            },
            Word::Later {
                ci,
                second,
                gsi,
                content,
            } => WordFields {
                content,
                ci,
                second,
                gsi,
                kind: 2,
                ..WordFields::default()
            },
            Word::Tuning(word) => WordFields {
                word,
                kind: 3,
                ..WordFields::default()
            },
            Word::Administration(word) => WordFields {
                word,
                kind: 4,
                ..WordFields::default()
            },
            Word::Index7(word) => WordFields {
                word,
                kind: 5,
                ..WordFields::default()
            },
            Word::Beyond(_) => WordFields::default(),
        }
    }
}

// The word whose fields these are; refused (9) where there is none.
impl TryFrom<WordFields> for Word {
    type Error = Refusal;

    ghost try_from_gives = { λ fields word. word ≡ word_from fields };

    #[tactic(auto, unfolding(crate::specs::Words::word_from))]
    fn try_from(fields: WordFields) -> Result<Word, Refusal> {
        let word = fields.by_kind();
        if fields == WordFields::from(word) {
            Ok(word)
        } else {
            Err(Refusal::Unfit)
        }
    }
}

impl WordFields {
    // The word of the kind's own fields.
    #[tactic(auto, unfolding(crate::specs::Words::word_by))]
    fn by_kind(self) -> Word
        ensures { result ≡ word_by self }
    {
        match self.kind {
            0 => Word::Single {
                duration: self.duration,
                diversion: self.diversion,
                head: self.head,
            },
            1 => Word::First {
                ci: self.ci,
                head: self.head,
            },
            2 => Word::Later {
                ci: self.ci,
                second: self.second,
                gsi: self.gsi,
                content: self.content,
            },
            3 => Word::Tuning(self.word),
            4 => Word::Administration(self.word),
            _ => Word::Index7(self.word),
        }
    }

    // The word whose fields these are; where there is none, a number that is no word.
    pub fn word(self) -> Word
        ensures { result ≡ word_or_none self }
    {
        Word::try_from(self).unwrap_or(Word::Beyond(0))
    }
}
