// Lists the traffic messages of a recording: frames of the house form from standard input, lines to standard output.
#![tactic(auto)]

ghost use Rattle.std.specs.Prelude.{◌≡◌, ◌≤◌, true, false, length, take, IfErr, IfOk, IfSome, IsTrue, OnOk};
ghost use Rattle.std.specs.Io.KnownBytes.{Appends};
ghost use Rattle.lines.specs.Line.{header, room};
ghost use Rattle.lines.specs.Text.{put};
ghost use Rattle.session.specs.Session.{start, frame_room};
ghost use Rattle.recording.specs.Listing.{Listed, lines_from, listing as whole_listing};
ghost use Rattle.listing.specs.Owed.{HaveRoom, KeepsOwed, Reads};
ghost use Rattle.listing.specs.Failures.{IsInput, IsOutput};

use framing::input::keep;
use lines::line::put_header;
use recording::{Progress, list};
use session::Session;
use std::io;
use std::io::{Read, Write};
use thiserror::Error;

// The bytes of the input buffer, and of the buffer for lines.
const BUFFER: usize = 65536;

// The stream that failed. No other error comes.
#[derive(Debug, Drop, Error)]
pub enum Failure {
    #[error("standard input: {0}")]
    Input(io::Error),
    #[error("standard output: {0}")]
    Output(io::Error),
}

// What goes on from turn to turn: the bytes from..end of the input buffer are still to be listed.
#[derive(Clone, Copy)]
struct State {
    session: Session,
    from: usize,
    end: usize,
    // The input is at its end.
    last: bool,
    // There is more to do.
    more: bool,
}

fn main(rt: HostRuntime) -> anyhow::Result<()> {
    let mut reader = rt.stdin();
    let mut writer = rt.stdout();
    list_recording(&mut reader, &mut writer)?;
    Ok(())
}

// Writes the listing of all that a reader gives. Answers true only where it got to the end.
pub fn list_recording<R: Read, W: Write>(reader: &mut R, writer: &mut W) -> Result<bool, Failure>
    ensures { IfOk result (λ whole. IsTrue whole → IfSome (R.remaining reader.old) (λ xs. Appends (W.contents writer.old) (W.contents writer.new) (whole_listing xs))) }
{
    let mut input = [0u8; BUFFER];
    let mut out = [0u8; BUFFER];
    print_header(writer, &mut out)?;
    list_all(reader, writer, &mut input, &mut out)
}

// Prints the header.
fn print_header<W: Write>(writer: &mut W, out: &mut [u8]) -> Result<(), Failure>
    requires { room ≤ length out.old }
    ensures written { OnOk result (Appends (W.contents writer.old) (W.contents writer.new) header) }
    ensures failed { IfErr result IsOutput }
    ensures out_after { out.new ≡ put 0 header out.old }
{
    let end = put_header(out, 0);
    write(writer, &out[..end])
}

// Writes bytes.
fn write<W: Write>(writer: &mut W, bytes: &[u8]) -> Result<(), Failure>
    ensures written { OnOk result (Appends (W.contents writer.old) (W.contents writer.new) bytes.now) }
    ensures failed { IfErr result IsOutput }
{
    writer.write_all(bytes).map_err(Failure::Output)
}

// Lists all of the input. A proved loop has to end, and nothing says that the input does: so the loop counts its turns, up to a
// number that no run uses up. Answers true only where the listing is whole. What the buffers hold then is not
// said.
fn list_all<R: Read, W: Write>(
    reader: &mut R,
    writer: &mut W,
    input: &mut [u8],
    out: &mut [u8],
) -> Result<bool, Failure>
    ensures { HaveRoom input.old out.old → IfOk result (λ whole. IsTrue whole → IfSome (R.remaining reader.old) (λ xs. Appends (W.contents writer.old) (W.contents writer.new) (lines_from start xs))) }
{
    let mut state = State {
        session: Session::new(),
        from: 0,
        end: 0,
        last: false,
        more: true,
    };
    for _ in 0..u64::MAX {
        if !state.more {
            return Ok(true);
        }
        state = turn(state, reader, writer, input, out)?;
    }
    Ok(false)
}

// Lists the bytes at hand and writes their lines. Reads more only where they gave none. Where the lines cannot be written, the bytes
// at hand stay.
fn turn<R: Read, W: Write>(
    state: State,
    reader: &mut R,
    writer: &mut W,
    input: &mut [u8],
    out: &mut [u8],
) -> Result<State, Failure>
    requires { (state.from ≤ state.end) × (state.end ≤ length input.old) }
    ensures within { IfOk result (λ s. (s.from ≤ s.end) × (s.end ≤ length input.new)) }
    ensures owed { HaveRoom input.old out.old → state.more ≡ true → IfOk result (λ s. KeepsOwed state input.old (R.remaining reader.old) (W.contents writer.old) s input.new (R.remaining reader.new) (W.contents writer.new)) }
    ensures unread { IfErr result (λ e. IsOutput e → input.new ≡ input.old) }
{
    let progress = list_bytes(
        state.session,
        &input[state.from..state.end],
        state.last,
        out,
    );
    let after = progress.session;
    let next = state.from + progress.taken;
    write(writer, &out[..progress.written])?;
    if progress.ended {
        return Ok(closed(after));
    }
    if 0 < progress.written {
        return Ok(State {
            session: after,
            from: next,
            end: state.end,
            last: state.last,
            more: true,
        });
    }
    let kept = keep(&mut input[..state.end], next);
    read_more(after, reader, input, kept)
}

// Lists some bytes. The buffer that the program lends is larger than the listing asks for; a smaller one would end it.
#[tactic(auto, unfolding(recording::specs::Listing::Answered))]
fn list_bytes(session: Session, s: &[u8], last: bool, out: &mut [u8]) -> Progress
    ensures within { (result.taken ≤ length s.now) × (result.written ≤ length out.new) }
    ensures listed { frame_room ≤ length out.old → Listed session s.now last out.old result out.new }
{
    match list(session, s, last, out) {
        Ok(progress) => progress,
        Err(_) => Progress {
            session,
            taken: 0,
            written: 0,
            ended: true,
        },
    }
}

// Nothing more to do.
fn closed(session: Session) -> State
    ensures bounds { (result.from ≡ 0) × (result.end ≡ 0) }
    ensures closed { result.more ≡ false }
{
    State {
        session,
        from: 0,
        end: 0,
        last: true,
        more: false,
    }
}

// Reads once after the bytes that are kept.
fn read_more<R: Read>(
    session: Session,
    reader: &mut R,
    input: &mut [u8],
    end: usize,
) -> Result<State, Failure>
    requires { end ≤ length input.old }
    ensures within { IfOk result (λ s. (s.from ≤ s.end) × (s.end ≤ length input.new)) }
    ensures reads { IfOk result (λ s. Reads session (take end input.old) (R.remaining reader.old) s input.new (R.remaining reader.new)) }
    ensures failed { IfErr result IsInput }
    ensures kept { take end input.new ≡ take end input.old }
{
    match reader.read(&mut input[end..]) {
        Ok(n) => Ok(State {
            session,
            from: 0,
            end: end + n,
            last: n == 0,
            more: true,
        }),
        Err(e) => Err(Failure::Input(e)),
    }
}
