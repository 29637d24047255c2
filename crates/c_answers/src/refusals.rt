// A refusal and its place in the numbers of the header.
ghost use Rattle.std.specs.Prelude.{◌≡◌};
ghost use Rattle.refusal.specs.Number.{refusal_in};
ghost use Rattle.report.specs.Answers.{number_of};
ghost use Rattle.c_answers.specs.Refusals.{place_told};

use refusal::Refusal;
use report::Unreadable;

// What is told where no content breaks: no place has this number.
pub const NOT_BROKEN: u8 = 255;

// The number of the refusal that an answer is, 0 where it is none.
pub fn refusal_in<T: Copy>(answer: Result<T, Refusal>) -> u8
    ensures { result ≡ refusal_in answer }
{
    match answer {
        Ok(_) => 0,
        Err(refusal) => refusal.into(),
    }
}

// The number of the refusal behind a report that cannot be read.
pub(crate) fn number_of(unreadable: Unreadable) -> u8
    ensures { result ≡ number_of unreadable }
{
    match unreadable {
        Unreadable::Refused(refusal) => refusal.into(),
        Unreadable::Broken { refusal, .. } => refusal.into(),
    }
}

// Where content breaks.
pub(crate) fn broken_at(unreadable: Unreadable) -> u8
    ensures { result ≡ place_told unreadable }
{
    match unreadable {
        Unreadable::Refused(_) => NOT_BROKEN,
        Unreadable::Broken { place, .. } => place,
    }
}
