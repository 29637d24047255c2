// Reports and the assembler.
ghost use Rattle.std.specs.Prelude.{◌≡◌};
ghost use Rattle.c_answers.specs.Reports.{written_by, step_answer};

use crate::refusals::{NOT_BROKEN, broken_at, number_of, refusal_in};
use assembler::{Answer, Partial, Step};
use c_values::reports::PlainReport;
use c_values::states::state_of;
use refusal::Refusal;
use report::Report;

// How many words or bytes were written into the lent buffer.
#[repr(C)]
#[derive(Clone, Copy)]
pub struct Written {
    pub count: usize,
    pub refusal: u8,
}

impl From<Result<usize, Refusal>> for Written {
    ghost from_gives = { λ answer told. told ≡ written_by answer };

    fn from(answer: Result<usize, Refusal>) -> Self {
        Written {
            count: answer.unwrap_or(0),
            refusal: refusal_in(answer),
        }
    }
}

// What a word gave: a kind, 0 nothing yet, 1 a report, 2 a tuning word, 3 an administration word, with the report or the word beside it, and the
// assembler's next state, on a refusal too; and where content breaks.
#[repr(C)]
#[derive(Clone, Copy)]
pub struct AssemblerAnswer {
    pub report: PlainReport,
    pub next: Partial,
    pub word: u64,
    pub kind: u8,
    pub refusal: u8,
    pub broken: u8,
}

impl From<Step> for AssemblerAnswer {
    ghost from_gives = { λ step told. told ≡ step_answer step };

    fn from(step: Step) -> Self {
        let nothing = AssemblerAnswer {
            report: Report::new().into(),
            next: state_of(step.next),
            word: 0,
            kind: 0,
            refusal: 0,
            broken: NOT_BROKEN,
        };
        match step.answer {
            Ok(Answer::Nothing) => nothing,
            Ok(Answer::Report(report)) => AssemblerAnswer {
                report: report.into(),
                kind: 1,
                ..nothing
            },
            Ok(Answer::Tuning(word)) => AssemblerAnswer {
                word,
                kind: 2,
                ..nothing
            },
            Ok(Answer::Administration(word)) => AssemblerAnswer {
                word,
                kind: 3,
                ..nothing
            },
            Err(unreadable) => AssemblerAnswer {
                refusal: number_of(unreadable),
                broken: broken_at(unreadable),
                ..nothing
            },
        }
    }
}
