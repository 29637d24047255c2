// The words that a frame carries, by its kind.
#![tactic(auto)]

ghost use Rattle.std.specs.Prelude.{◌≡◌, ◌≤◌, length};
ghost use Rattle.refusal.specs.Number.{count_in};
ghost use Rattle.carriers.specs.Carried.{most_words, kind_by, carried_in, carried_by, run_after, words_after, rds_count, fig_count, rds_after};

use drm::DataUnit;
use fig::Fig;
use rds::Run;
use refusal::Refusal;

// What a frame's body is.
#[derive(Clone, Copy, Debug, PartialEq, Eq)]
pub enum Kind {
    // An RDS group.
    Rds = 1,
    // A FIG.
    Fig = 2,
    // A DRM data unit.
    Drm = 3,
}

impl TryFrom<usize> for Kind {
    type Error = Refusal;

    ghost try_from_gives = { λ kind r. r ≡ kind_by kind };

    #[tactic(auto, unfolding(crate::specs::Carried::kind_by))]
    fn try_from(kind: usize) -> Result<Self, Refusal> {
        match kind {
            1 => Ok(Kind::Rds),
            2 => Ok(Kind::Fig),
            3 => Ok(Kind::Drm),
            _ => Err(Refusal::OtherKind),
        }
    }
}

// The run after a frame, and how many words it carries, in a buffer beside it, or its refusal.
#[derive(Clone, Copy, Debug, PartialEq, Eq)]
pub struct Reception {
    pub run: Run,
    pub carried: Result<usize, Refusal>,
}

impl Reception {
    // The most words of a frame: those of a data unit.
    pub const WORDS: usize = DataUnit::WORDS;
}

// Reads the words of a frame's body, by its kind, into the first cells of a buffer. A kind other than the three is refused (2). The cells
// after the words stay, and on a refusal all cells do. Of a FIG's words those of 16 bits do not count.
#[tactic(auto, using(crate::proofs::Carrying::rds_carried, crate::proofs::Carrying::fig_carried, crate::proofs::Carrying::unit_carried, crate::proofs::Carrying::fig_fits, crate::proofs::Carrying::unit_fits, crate::proofs::Carrying::rds_fits), unfolding(crate::specs::Carried::carried_as, crate::specs::Carried::run_as, crate::specs::Carried::words_as))]
pub fn receive(run: Run, kind: usize, body: &[u8], words: &mut [u64; Reception::WORDS]) -> Reception
    ensures run_value { result.run ≡ run_after kind run body.now }
    ensures words_after { carried_in result.carried words.new ≡ carried_by kind run body.now }
    ensures carried_bound { (count_in result.carried ≤ most_words) × (length words.new ≡ most_words) }
    ensures words_after_2 { words.new ≡ words_after kind run body.now words.old }
{
    match Kind::try_from(kind) {
        Ok(Kind::Rds) => {
            let step = run.receive(body);
            Reception {
                run: step.run,
                carried: put_valid(step.answer, words),
            }
        }
        Ok(Kind::Fig) => Reception {
            run,
            carried: Fig::read(body, words).map(long_words),
        },
        Ok(Kind::Drm) => Reception {
            run,
            carried: DataUnit::read(body, words).map(|r| r.count),
        },
        Err(refusal) => Reception {
            run,
            carried: Err(refusal),
        },
    }
}

// Puts a valid word into the first cell: how many words there are.
#[tactic(auto, unfolding(crate::specs::Carried::rds_after))]
fn put_valid(answer: Result<Option<u64>, Refusal>, words: &mut [u64]) -> Result<usize, Refusal>
    requires { length words.old ≡ most_words }
    ensures count { result ≡ rds_count answer }
    ensures words_after { words.new ≡ rds_after answer words.old }
{
    match answer? {
        Some(word) => {
            words[0] = word;
            Ok(1)
        }
        None => Ok(0),
    }
}

// How many words of a FIG have 37 bits.
fn long_words(reading: fig::Reading) -> usize
    ensures { result ≡ fig_count reading }
{
    if reading.fig.d1 == 0 {
        reading.count
    } else {
        0
    }
}
