// One call.
ghost use Rattle.std.specs.Prelude.{◌≡◌, true, [], ◌∷◌, ◌++◌};
ghost use Rattle.report.specs.Read.{read_report};
ghost use Rattle.transmission.specs.Step.{step_by, later as Step·later, completed as Step·completed};
ghost use Rattle.assembler.specs.Reading.{rules};
ghost use Rattle.assembler.specs.State.{state_of, contents_of};
ghost use Rattle.assembler.specs.Fits.{partial_fits, fits};
ghost use Rattle.assembler.specs.Answers.{given, leaving as Answers·leaving};
ghost use Rattle.assembler.specs.Step.{step_of};

use crate::join::read_whole;
use crate::{Answer, Assembler, Partial, Step};
use refusal::Refusal;
use report::{Report, Unreadable};
use word::Word;

impl Assembler {
    // The state before any call.
    pub fn new() -> Self
        ensures { result ≡ Assembler.Empty }
    {
        Assembler::Empty
    }

    // Takes the next word. A word of 2^37 or more and a state that no calls reach are unfit before all else; continuity index 7 and a later
    // group out of turn are refused, and the content of a whole message with the place where it breaks.
    #[tactic(auto, unfolding(crate::specs::Step::step_of, transmission::specs::Step::step))]
    pub fn step(self, word: u64) -> Step
        ensures { result ≡ step_of read_report self word }
    {
        if self.fits() {
            self.take(Word::parse(word))
        } else {
            leaving(self, Err(Unreadable::Refused(Refusal::Unfit)))
        }
    }

    // A word, by its kind.
    #[tactic(auto, using(crate::proofs::States::assembler_state), unfolding(transmission::specs::Step::step_by, crate::specs::State::assembler_of, crate::specs::Answers::answer_of))]
    fn take(self, word: Word) -> Step
        requires { fits self ≡ true }
        ensures { result ≡ given (step_by (rules read_report) (state_of self) word) }
    {
        match word {
            Word::Single {
                duration,
                diversion,
                head,
            } => {
                let report = Report::single(duration, diversion, head);
                leaving(Assembler::Empty, Ok(Answer::Report(report)))
            }
            Word::First { ci, head } => {
                let next = Assembler::Started(Partial::opened(ci, head));
                leaving(next, Ok(Answer::Nothing))
            }
            Word::Later {
                ci,
                second,
                gsi,
                content,
            } => self.take_later(ci, second, gsi, content),
            Word::Tuning(n) => leaving(self, Ok(Answer::Tuning(n))),
            Word::Administration(n) => leaving(self, Ok(Answer::Administration(n))),
            Word::Index7(_) => leaving(self, Err(Unreadable::Refused(Refusal::Continuity7))),
            Word::Beyond(_) => leaving(self, Err(Unreadable::Refused(Refusal::Unfit))),
        }
    }

    // A later group.
    #[tactic(auto, unfolding(crate::specs::Fits::fits, transmission::specs::Step::later, crate::specs::State::state_of, crate::specs::State::assembler_of, crate::specs::Answers::answer_of))]
    fn take_later(self, ci: u8, second: u8, gsi: u8, content: u32) -> Step
        requires { fits self ≡ true }
        ensures { result ≡ given (Step·later (rules read_report) (state_of self) ci second gsi content) }
    {
        match self {
            Assembler::Empty => leaving(self, Err(Unreadable::Refused(Refusal::OutOfTurn))),
            Assembler::Started(p) => later(p, ci, second, gsi, content),
        }
    }
}

// A later group while a message is open.
#[tactic(auto, using(crate::proofs::Turns::last_group, crate::proofs::Turns::another_group, crate::proofs::Turns::stray_group), unfolding(crate::specs::State::assembler_of, crate::specs::Answers::answer_of))]
fn later(p: Partial, ci: u8, second: u8, gsi: u8, content: u32) -> Step
    requires { partial_fits p ≡ true }
    ensures { result ≡ given (Step·later (rules read_report) (state_of (Assembler.Started p)) ci second gsi content) }
{
    if (p.ci == ci) & p.in_turn(second, gsi) {
        if gsi == 0 {
            completed(p, content)
        } else {
            leaving(
                Assembler::Started(p.extended(gsi, content)),
                Ok(Answer::Nothing),
            )
        }
    } else {
        leaving(
            Assembler::Empty,
            Err(Unreadable::Refused(Refusal::OutOfTurn)),
        )
    }
}

// The last group of a message.
#[tactic(auto, unfolding(transmission::specs::Step::completed, crate::specs::State::assembler_of, crate::specs::Answers::answer_of))]
fn completed(p: Partial, content: u32) -> Step
    requires { partial_fits p ≡ true }
    ensures { result ≡ given (Step·completed (read_report p.head (contents_of p ++ content ∷ []))) }
{
    match read_whole(p, content) {
        Ok(report) => leaving(Assembler::Empty, Ok(Answer::Report(report))),
        Err(e) => leaving(Assembler::Empty, Err(e)),
    }
}

// A state with an answer.
fn leaving(next: Assembler, answer: Result<Answer, Unreadable>) -> Step
    ensures { result ≡ Answers·leaving next answer }
{
    Step { next, answer }
}
