// Whether user words are whole messages.
#![tactic(auto)]

ghost use Rattle.std.specs.Prelude.{◌≡◌};
ghost use Rattle.report.specs.Read.{read_report};
ghost use Rattle.messages.specs.Messages.{is_empty, begins, whole};

use assembler::Assembler;
use word::Word;

// Whether a fresh assembler refuses none of the words, drops no open message and ends with none open.
pub fn are_whole(words: &[u64]) -> bool
    ensures { result ≡ whole read_report words.now }
{
    let mut state = Assembler::new();
    for word in words {
        let advance = state.advance(*word);
        let drops = begins(Word::parse(*word)) & !is_empty(state);
        if drops | !advance.taken {
            return false;
        }
        state = advance.next;
    }
    is_empty(state)
}

// Whether no message is open.
#[tactic(auto, unfolding(crate::specs::Messages::is_empty))]
fn is_empty(state: Assembler) -> bool
    ensures { result ≡ is_empty state }
{
    matches!(state, Assembler::Empty)
}

// Whether a word begins a message, so that one that is open is dropped.
#[tactic(auto, unfolding(crate::specs::Messages::begins))]
fn begins(word: Word) -> bool
    ensures { result ≡ begins word }
{
    matches!(word, Word::Single { .. } | Word::First { .. })
}
