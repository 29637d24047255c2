// The header, the line of a report and the line of a refusal.
ghost use Rattle.std.specs.Prelude.{◌≡◌, ◌+◌, ◌*◌, ◌≤◌, length};
ghost use Rattle.lines.specs.Text.{Put};
ghost use Rattle.lines.specs.Line.{header, room, field_room, letter as Line·letter, form_text, line, report_line, marked, refusal_line};

use crate::text::{put_byte, put_bytes, put_decimal, put_fields};
use report::{Form, Report, Unreadable};

// The room that a line takes at most.
pub const ROOM: usize = 170;

// The header.
#[tactic(auto, unfolding(crate::specs::Line::header))]
pub fn put_header(out: &mut [u8], at: usize) -> usize
    requires { at + room ≤ length out.old }
    ensures { Put at header out.old result out.new }
{
    put_bytes(
        out,
        at,
        b"no form event location dir extent div dur items\n",
    )
}

// The line of a report with this number.
pub fn put_report(out: &mut [u8], at: usize, number: u64, report: Report) -> usize
    requires { at + room ≤ length out.old }
    ensures put { Put at (report_line number report) out.old result out.new }
    ensures upper_bound { result ≤ at + room }
{
    let head = report.head;
    let values = [
        head.event as u64,
        head.location as u64,
        head.direction as u64,
        head.extent as u64,
        report.diversion as u64,
        report.duration as u64,
        report.items.count as u64,
    ];
    put_line(out, at, number, report.form, &values)
}

// A number, the letter of a form and the fields after it.
#[tactic(auto, using(crate::proofs::Rooms::digits_64))]
fn put_line(out: &mut [u8], at: usize, number: u64, form: Form, values: &[u64]) -> usize
    requires { at + 23 + field_room * length values.now ≤ length out.old }
    ensures put { Put at (line number form values.now) out.old result out.new }
    ensures upper_bound { result ≤ at + 23 + field_room * length values.now }
{
    let next = put_decimal(out, at, number);
    let after = put_form(out, next, form);
    let end = put_fields(out, after, values);
    put_byte(out, end, b'\n')
}

// A space and the letter of a form.
fn put_form(out: &mut [u8], at: usize, form: Form) -> usize
    requires { at + 2 ≤ length out.old }
    ensures { Put at (form_text form) out.old result out.new }
{
    put_bytes(out, at, &[b' ', letter(form)])
}

// The letter of a form.
fn letter(form: Form) -> u8
    ensures { result ≡ Line·letter form }
{
    match form {
        Form::Single => b'S',
        Form::Multi => b'M',
    }
}

// The line of a refusal in the frame with this number, with the place where it has one.
pub fn put_refusal(out: &mut [u8], at: usize, frame: u64, refusal: Unreadable) -> usize
    requires { at + room ≤ length out.old }
    ensures put { Put at (refusal_line frame refusal) out.old result out.new }
    ensures upper_bound { result ≤ at + room }
{
    match refusal {
        Unreadable::Refused(refusal) => {
            put_marked(out, at, &[frame, u64::from(u8::from(refusal))])
        }
        Unreadable::Broken { refusal, place } => put_marked(
            out,
            at,
            &[frame, u64::from(u8::from(refusal)), u64::from(place)],
        ),
    }
}

// The mark of a refusal and the numbers after it, whatever numbers they are.
pub fn put_marked(out: &mut [u8], at: usize, values: &[u64]) -> usize
    requires { at + 2 + field_room * length values.now ≤ length out.old }
    ensures put { Put at (marked values.now) out.old result out.new }
    ensures upper_bound { result ≤ at + 2 + field_room * length values.now }
{
    let next = put_byte(out, at, b'!');
    let end = put_fields(out, next, values);
    put_byte(out, end, b'\n')
}
