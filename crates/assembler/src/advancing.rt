// A call without its report: what a word does to the state, for those who only test words. It is not written over `step`, which then has one
// caller among the calls for C and is compiled into it: over `step` each word takes a third longer, and so does one generic call for both.
ghost use Rattle.std.specs.Prelude.{◌≡◌, true, is_ok, [], ◌∷◌, ◌++◌};
ghost use Rattle.report.specs.Read.{read_report};
ghost use Rattle.transmission.specs.Step.{step_by, later as Step·later};
ghost use Rattle.assembler.specs.Reading.{rules};
ghost use Rattle.assembler.specs.State.{state_of, contents_of};
ghost use Rattle.assembler.specs.Fits.{partial_fits, fits};
ghost use Rattle.assembler.specs.Answers.{given};
ghost use Rattle.assembler.specs.Advance.{advance_of};
ghost use Rattle.assembler.specs.Step.{step_of};

use crate::join::read_whole;
use crate::{Advance, Assembler, Partial};
use word::Word;

impl Assembler {
    // The state after a word and whether the word is taken, as `step` has them.
    #[tactic(auto, unfolding(crate::specs::Step::step_of, transmission::specs::Step::step))]
    pub fn advance(self, word: u64) -> Advance
        ensures { result ≡ advance_of (step_of read_report self word) }
    {
        if self.fits() {
            self.advance_by(Word::parse(word))
        } else {
            advanced(self, false)
        }
    }

    // By the kind of the word.
    #[tactic(auto, using(crate::proofs::States::assembler_state), unfolding(transmission::specs::Step::step_by, crate::specs::State::assembler_of, crate::specs::Answers::answer_of))]
    fn advance_by(self, word: Word) -> Advance
        requires { fits self ≡ true }
        ensures { result ≡ advance_of (given (step_by (rules read_report) (state_of self) word)) }
    {
        match word {
            Word::Single { .. } => advanced(Assembler::Empty, true),
            Word::First { ci, head } => {
                let next = Assembler::Started(Partial::opened(ci, head));
                advanced(next, true)
            }
            Word::Later {
                ci,
                second,
                gsi,
                content,
            } => self.advance_later(ci, second, gsi, content),
            Word::Tuning(_) => advanced(self, true),
            Word::Administration(_) => advanced(self, true),
            Word::Index7(_) => advanced(self, false),
            Word::Beyond(_) => advanced(self, false),
        }
    }

    // By a later group.
    #[tactic(auto, unfolding(crate::specs::Fits::fits, transmission::specs::Step::later, crate::specs::State::state_of, crate::specs::State::assembler_of, crate::specs::Answers::answer_of))]
    fn advance_later(self, ci: u8, second: u8, gsi: u8, content: u32) -> Advance
        requires { fits self ≡ true }
        ensures { result ≡ advance_of (given (Step·later (rules read_report) (state_of self) ci second gsi content)) }
    {
        match self {
            Assembler::Empty => advanced(self, false),
            Assembler::Started(p) => advance_open(p, ci, second, gsi, content),
        }
    }
}

// By a later group while a message is open.
#[tactic(auto, using(crate::proofs::Turns::last_group, crate::proofs::Turns::another_group, crate::proofs::Turns::stray_group), unfolding(transmission::specs::Step::completed, crate::specs::State::assembler_of, crate::specs::Answers::answer_of))]
fn advance_open(p: Partial, ci: u8, second: u8, gsi: u8, content: u32) -> Advance
    requires { partial_fits p ≡ true }
    ensures { result ≡ advance_of (given (Step·later (rules read_report) (state_of (Assembler.Started p)) ci second gsi content)) }
{
    if (p.ci == ci) & p.in_turn(second, gsi) {
        if gsi == 0 {
            advanced(Assembler::Empty, read_whole(p, content).is_ok())
        } else {
            advanced(Assembler::Started(p.extended(gsi, content)), true)
        }
    } else {
        advanced(Assembler::Empty, false)
    }
}

fn advanced(next: Assembler, taken: bool) -> Advance
    ensures { result ≡ record { next = next; taken = taken } }
{
    Advance { next, taken }
}
