// 37-bit words and system words.
ghost use Rattle.std.specs.Prelude.{◌≡◌};
ghost use Rattle.word.specs.Kind.{kind_of};
ghost use Rattle.system.specs.Read.{system_of};
ghost use Rattle.word.specs.Compose.{composed};
ghost use Rattle.c_values.specs.Words.{word_or_none};
ghost use Rattle.system.specs.Write.{written};
ghost use Rattle.c_values.specs.Systems.{system_or_none};
ghost use Rattle.c_answers.specs.Words.{word_parsed, word_composed, system_reading, system_written};

use c_answers::words::{SystemReading, SystemWritten, WordComposed, WordParsed};
use c_values::systems::SystemFields;
use c_values::words::WordFields;
use system::System;
use word::Word;

// Takes a word apart. A number that is no word is refused (9).
#[unsafe(no_mangle)]
pub extern "C" fn alertc_word_parse(word: u64) -> WordParsed
    ensures { result ≡ word_parsed (kind_of word) }
{
    WordParsed::from(Word::parse(word))
}

// The word of fields. A field out of its range, one that the kind does not have and that is not 0, and another kind are refused (9).
#[unsafe(no_mangle)]
pub extern "C" fn alertc_word_compose(fields: WordFields) -> WordComposed
    ensures { result ≡ word_composed (composed (word_or_none fields)) }
{
    WordComposed::from(fields.word().compose())
}

// Reads a system word. Another variant is refused (2).
#[unsafe(no_mangle)]
pub extern "C" fn alertc_system_read(word: u16) -> SystemReading
    ensures { result ≡ system_reading (system_of word) }
{
    SystemReading::from(System::read(word))
}

// The system word of fields. A field out of its range, one that the variant does not have and that is not 0, and another variant are refused (9).
#[unsafe(no_mangle)]
pub extern "C" fn alertc_system_write(fields: SystemFields) -> SystemWritten
    ensures { result ≡ system_written (written (system_or_none fields)) }
{
    SystemWritten::from(fields.system().write())
}
