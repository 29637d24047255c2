// A recording of the house form, listed: frames of any number, from bytes that come in pieces of any size.
#![tactic(auto)]

ghost use Rattle.std.specs.Prelude.{◌≡◌};
ghost use Rattle.recording.specs.Listing.{Listed, Answered, end_at};

use framing::Frame;
use lines::line::put_refusal;
use refusal::Refusal;
use report::Unreadable;
use session::{Session, next};

// The bytes of buffer that a call asks for: the most text that a frame gives.
pub const ROOM: usize = Session::ROOM;

// How far a call got: the session then, the bytes taken, the bytes of text, and whether the listing is at its end.
#[derive(Clone, Copy)]
pub struct Progress {
    pub session: Session,
    pub taken: usize,
    pub written: usize,
    pub ended: bool,
}

// Lists the frames at the front of the bytes at hand, which may be the last ones, into the first cells of a buffer. It stops where
// less than `ROOM` is left of the buffer, and where only a part of a frame or nothing is left of the bytes. A buffer of less than
// `ROOM` is too small, and stays as it is.
#[tactic(auto, unfolding(crate::specs::Listing::Answered))]
pub fn list(begun: Session, s: &[u8], last: bool, out: &mut [u8]) -> Result<Progress, Refusal>
    ensures { Answered begun s.now last out.old result out.new }
{
    if out.len() < ROOM {
        return Err(Refusal::SmallBuffer);
    }
    Ok(list_on(begun, s, last, out))
}

// The same, whatever the room. A frame is as long as it says, and a turn needs room: no iterator over the bytes or the frames gives both.
fn list_on(begun: Session, s: &[u8], last: bool, out: &mut [u8]) -> Progress
    ensures { Listed begun s.now last out.old result out.new }
{
    let mut session = begun;
    let mut from = 0;
    let mut at = 0;
    while Session::ROOM <= out.len() - at {
        let f = Frame::of(&s[from..]);
        let Frame::Whole(n) = f else {
            return match end(f, last) {
                Ok(ended) => Progress {
                    session,
                    taken: from,
                    written: at,
                    ended,
                },
                Err(refusal) => Progress {
                    session,
                    taken: from,
                    written: put_refusal(
                        out,
                        at,
                        next(session.frames),
                        Unreadable::Refused(refusal),
                    ),
                    ended: true,
                },
            };
        };
        let start = from + Frame::LENGTH;
        let to = start + n;
        let told = session.frame(&s[start..to], out, at);
        session = told.session;
        at = told.at;
        from = to;
    }
    Progress {
        session,
        taken: from,
        written: at,
        ended: false,
    }
}

// Whether bytes that begin so end the listing. A cut frame and a length that no frame has are refused, which ends it too.
#[tactic(auto, unfolding(crate::specs::Listing::end_at))]
fn end(f: Frame, last: bool) -> Result<bool, Refusal>
    ensures { result ≡ end_at f last }
{
    match f {
        Frame::End => Ok(last),
        Frame::Part => {
            if last {
                Err(Refusal::WrongLength)
            } else {
                Ok(false)
            }
        }
        Frame::Bad => Err(Refusal::WrongLength),
        Frame::Whole(_) => Ok(false),
    }
}
