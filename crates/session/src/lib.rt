// A session of the listing: what is kept between two frames, and one word and one frame to their lines.
#![tactic(auto)]

ghost use Rattle.std.specs.Prelude.{◌≡◌, ◌+◌, ◌*◌, ◌≤◌, length};
ghost use Rattle.lines.specs.Text.{Put};
ghost use Rattle.lines.specs.Line.{room};
ghost use Rattle.framing.specs.Frame.{kind_of as Frame·kind_of};
ghost use Rattle.session.specs.Session.{start, answer_text, counted as Session·counted, next as Session·next, after_word, word_text, after_words, words_text, after_frame, frame_text, frame_room};

use assembler::{Answer, Assembler};
use carriers::{Reception, receive};
use framing::little;
use lines::line::{ROOM, put_refusal, put_report};
use rds::Run;
use report::Unreadable;

// What is kept between two frames.
#[derive(Clone, Copy)]
pub struct Session {
    // One assembler serves all kinds.
    pub assembler: Assembler,
    // The run of equal words over all RDS frames.
    pub run: Run,
    // The numbers of the last frame and of the last report.
    pub frames: u64,
    pub reports: u64,
}

// The session after some text was put, and the index after that text.
#[derive(Clone, Copy)]
pub struct Told {
    pub session: Session,
    pub at: usize,
}

impl Session {
    // The bytes of a frame's kind.
    pub const KIND: usize = 2;
    // The most text that a frame gives.
    pub const ROOM: usize = Reception::WORDS * ROOM;

    // The session before any frame.
    pub fn new() -> Self
        ensures { result ≡ start }
    {
        Session {
            assembler: Assembler::Empty,
            run: Run::Empty,
            frames: 0,
            reports: 0,
        }
    }

    // Takes a word of the last frame to its line, if it has one.
    #[tactic(auto, unfolding(crate::specs::Session::after_word, crate::specs::Session::word_text))]
    fn word(self, word: u64, out: &mut [u8], at: usize) -> Told
        requires { at + room ≤ length out.old }
        ensures session_value { result.session ≡ after_word self word }
        ensures put { Put at (word_text self word) out.old result.at out.new }
        ensures at_bound { result.at ≤ at + room }
    {
        let step = self.assembler.step(word);
        let reports = counted(step.answer, self.reports);
        let end = put_answer(out, at, step.answer, reports, self.frames);
        Told {
            session: Session {
                assembler: step.next,
                reports,
                ..self
            },
            at: end,
        }
    }

    // Takes the words of the last frame to their lines, in order.
    fn words(self, words: &[u64], out: &mut [u8], at: usize) -> Told
        requires { at + length words.now * room ≤ length out.old }
        ensures session_value { result.session ≡ after_words self words.now }
        ensures put { Put at (words_text self words.now) out.old result.at out.new }
        ensures at_bound { result.at ≤ at + length words.now * room }
    {
        let mut told = Told { session: self, at };
        for word in words {
            told = told.session.word(*word, out, told.at);
        }
        told
    }

    // Takes a frame, its kind and body, to its lines. An inner call: it asks for the bytes of a kind and for `ROOM` in the buffer.
    #[tactic(auto, using(crate::proofs::Turns::tail_part), unfolding(crate::specs::Session::after_frame, crate::specs::Session::frame_text, crate::specs::Session::after_carried, crate::specs::Session::carried_text))]
    pub fn frame(self, bytes: &[u8], out: &mut [u8], at: usize) -> Told
        requires { (2 ≤ length bytes.now) × (at + frame_room ≤ length out.old) }
        ensures session_value { result.session ≡ after_frame self bytes.now }
        ensures put { Put at (frame_text self bytes.now) out.old result.at out.new }
        ensures at_bound { result.at ≤ at + frame_room }
    {
        let frames = next(self.frames);
        let mut words = [0u64; Reception::WORDS];
        let body = &bytes[Session::KIND..];
        let reception = receive(self.run, kind_of(bytes), body, &mut words);
        let session = Session {
            run: reception.run,
            frames,
            ..self
        };
        match reception.carried {
            Ok(n) => session.words(&words[..n], out, at),
            Err(refusal) => Told {
                session,
                at: put_refusal(out, at, frames, Unreadable::Refused(refusal)),
            },
        }
    }
}

// The kind, 16 bits, low byte first.
#[tactic(auto, unfolding(framing::specs::Frame::kind_of))]
fn kind_of(bytes: &[u8]) -> usize
    requires { 2 ≤ length bytes.now }
    ensures { result ≡ Frame·kind_of bytes.now }
{
    little(bytes[0], bytes[1])
}

// The number of the last report, after an answer.
#[tactic(auto, unfolding(crate::specs::Session::counted))]
fn counted(answer: Result<Answer, Unreadable>, reports: u64) -> u64
    ensures { result ≡ Session·counted answer reports }
{
    match answer {
        Ok(Answer::Report(_)) => next(reports),
        _ => reports,
    }
}

// The next number.
pub fn next(n: u64) -> u64
    ensures { result ≡ Session·next n }
{
    std::num::wrapping_add_u64(n, 1)
}

// Puts the line of an answer, if it has one.
#[tactic(auto, using(lines::proofs::Puts::put_nothing), unfolding(crate::specs::Session::answer_text))]
fn put_answer(
    out: &mut [u8],
    at: usize,
    answer: Result<Answer, Unreadable>,
    number: u64,
    frame: u64,
) -> usize
    requires { at + room ≤ length out.old }
    ensures put { Put at (answer_text answer number frame) out.old result out.new }
    ensures upper_bound { result ≤ at + room }
{
    match answer {
        Ok(Answer::Report(report)) => put_report(out, at, number, report),
        Err(refusal) => put_refusal(out, at, frame, refusal),
        _ => at,
    }
}
