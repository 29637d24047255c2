// RDS groups, FIGs, blocks and data units.
ghost use Rattle.std.specs.Prelude.{◌≡◌};
ghost use Rattle.c_answers.specs.Carriers.{group_reading, received_by, fig_reading, fib_reading, unit_reading};

use crate::refusals::refusal_in;
use c_values::runs::PlainRun;
use drm::DataUnit;
use fig::Fig;
use rds::{Group, Step};
use refusal::Refusal;

// A group read.
#[repr(C)]
#[derive(Clone, Copy)]
pub struct GroupReading {
    pub group: Group,
    pub refusal: u8,
}

impl From<Result<Group, Refusal>> for GroupReading {
    ghost from_gives = { λ answer told. told ≡ group_reading answer };

    fn from(answer: Result<Group, Refusal>) -> Self {
        GroupReading {
            group: answer.unwrap_or(Group::new()),
            refusal: refusal_in(answer),
        }
    }
}

// The run after a group, on a refusal too; whether the group gave a valid word (1, else 0), and the word.
#[repr(C)]
#[derive(Clone, Copy, Default)]
pub struct Received {
    pub run: PlainRun,
    pub word: u64,
    pub valid: u8,
    pub refusal: u8,
}

impl From<Step> for Received {
    ghost from_gives = { λ step told. told ≡ received_by step };

    fn from(step: Step) -> Self {
        let none = Received {
            run: step.run.into(),
            ..Received::default()
        };
        match step.answer {
            Ok(None) => none,
            Ok(Some(word)) => Received {
                word,
                valid: 1,
                ..none
            },
            Err(refusal) => Received {
                refusal: refusal.into(),
                ..none
            },
        }
    }
}

// A FIG read, and how many words it carries.
#[repr(C)]
#[derive(Clone, Copy)]
pub struct FigReading {
    pub count: usize,
    pub fig: Fig,
    pub refusal: u8,
}

impl From<Result<fig::Reading, Refusal>> for FigReading {
    ghost from_gives = { λ answer told. told ≡ fig_reading answer };

    fn from(answer: Result<fig::Reading, Refusal>) -> Self {
        let none = fig::Reading {
            fig: Fig::new(),
            count: 0,
        };
        let reading = answer.unwrap_or(none);
        FigReading {
            count: reading.count,
            fig: reading.fig,
            refusal: refusal_in(answer),
        }
    }
}

// How many words of a block were read; of a FIG 5/1 that was refused, the byte at which it begins and its refusal.
#[repr(C)]
#[derive(Clone, Copy, Default)]
pub struct FibReading {
    pub count: usize,
    pub begin: usize,
    pub stop: u8,
    pub refusal: u8,
}

impl From<Result<fib::Reading, Refusal>> for FibReading {
    ghost from_gives = { λ answer told. told ≡ fib_reading answer };

    fn from(answer: Result<fib::Reading, Refusal>) -> Self {
        match answer {
            Ok(fib::Reading::Whole(count)) => FibReading {
                count,
                ..FibReading::default()
            },
            Ok(fib::Reading::Stopped { fib, refusal }) => FibReading {
                count: fib.count,
                begin: fib.at,
                stop: refusal.into(),
                refusal: 0,
            },
            Err(refusal) => FibReading {
                refusal: refusal.into(),
                ..FibReading::default()
            },
        }
    }
}

// A data unit read, and how many words it carries.
#[repr(C)]
#[derive(Clone, Copy)]
pub struct UnitReading {
    pub count: usize,
    pub unit: DataUnit,
    pub refusal: u8,
}

impl From<Result<drm::Reading, Refusal>> for UnitReading {
    ghost from_gives = { λ answer told. told ≡ unit_reading answer };

    fn from(answer: Result<drm::Reading, Refusal>) -> Self {
        let none = drm::Reading {
            unit: DataUnit::new(),
            count: 0,
        };
        let reading = answer.unwrap_or(none);
        UnitReading {
            count: reading.count,
            unit: reading.unit,
            refusal: refusal_in(answer),
        }
    }
}
