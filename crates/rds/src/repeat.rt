// The repeat rule: a run of equal words counts as one valid word, at its second member.
ghost use Rattle.std.specs.Prelude.{◌≡◌};
ghost use Rattle.rds.specs.Repeat.{received, run_fits, heard, begun as Repeat·begun};

use crate::{Group, Run, Step};
use refusal::Refusal;

impl Run {
    // The run before any group.
    pub fn new() -> Self
        ensures { result ≡ Run.Empty }
    {
        Run::Empty
    }

    // Receives the bytes of a group. A run that no groups give is refused (9), and then a group that is none of type 8A (1 or 2). A
    // refusal leaves the run as it is.
    #[tactic(auto, unfolding(crate::specs::Repeat::received, crate::specs::Repeat::after_reading))]
    pub fn receive(self, group: &[u8]) -> Step
        ensures { result ≡ received self group.now }
    {
        if !self.fits() {
            return Step {
                run: self,
                answer: Err(Refusal::Unfit),
            };
        }
        match Group::read(group) {
            Ok(g) => self.take(g.word),
            Err(refusal) => Step {
                run: self,
                answer: Err(refusal),
            },
        }
    }

    // Whether groups can give the run: a word has 37 bits.
    #[tactic(auto, unfolding(crate::specs::Repeat::run_fits))]
    fn fits(self) -> bool
        ensures { result ≡ run_fits self }
    {
        match self {
            Run::Empty => true,
            Run::One(word) | Run::More(word) => word < Group::WORD_LIMIT,
        }
    }

    // Takes the next word among the 8A groups.
    #[tactic(auto, unfolding(crate::specs::Repeat::next_run, crate::specs::Repeat::answer_to))]
    fn take(self, word: u64) -> Step
        ensures { result ≡ heard self word }
    {
        match self {
            Run::One(v) if v == word => Step {
                run: Run::More(word),
                answer: Ok(Some(word)),
            },
            Run::More(v) if v == word => Step {
                run: Run::More(word),
                answer: Ok(None),
            },
            _ => begun(word),
        }
    }
}

// A run begins, and gives nothing yet.
fn begun(word: u64) -> Step
    ensures { result ≡ Repeat·begun word }
{
    Step {
        run: Run::One(word),
        answer: Ok(None),
    }
}
