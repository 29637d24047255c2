// The repeat rule's run.
ghost use Rattle.std.specs.Prelude.{◌≡◌};
ghost use Rattle.c_values.specs.Runs.{run_fits, run_of, run_by, run_from};

use rds::{Group, Run};
use refusal::Refusal;

// How often the last word was heard running, 2 for twice or more, and the word; 0 and 0 before the first group.
#[repr(C)]
#[derive(Clone, Copy, Default)]
pub struct PlainRun {
    pub word: u64,
    pub count: u8,
}

// A run as C has it.
impl From<Run> for PlainRun {
    ghost from_gives = { λ run plain. plain ≡ run_of run };

    fn from(run: Run) -> Self {
        match run {
            Run::Empty => PlainRun { word: 0, count: 0 },
            Run::One(word) => PlainRun { word, count: 1 },
            Run::More(word) => PlainRun { word, count: 2 },
        }
    }
}

impl PlainRun {
    // Whether it is a run that calls give.
    pub fn fits(self) -> bool
        ensures { result ≡ run_fits self }
    {
        match self.count {
            0 => self.word == 0,
            1 | 2 => self.word < Group::WORD_LIMIT,
            _ => false,
        }
    }

    // The run of one that fits.
    pub fn run(self) -> Run
        ensures { result ≡ run_by self }
    {
        match self.count {
            0 => Run::Empty,
            1 => Run::One(self.word),
            _ => Run::More(self.word),
        }
    }
}

// The run; one that no calls give is refused (9).
impl TryFrom<PlainRun> for Run {
    type Error = Refusal;

    ghost try_from_gives = { λ plain run. run ≡ run_from plain };

    fn try_from(plain: PlainRun) -> Result<Run, Refusal> {
        if plain.fits() {
            Ok(plain.run())
        } else {
            Err(Refusal::Unfit)
        }
    }
}
