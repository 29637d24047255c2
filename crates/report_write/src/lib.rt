// The words of a report, written into a lent buffer.
#![tactic(auto)]

ghost use Rattle.std.specs.Prelude.{◌≡◌, true, ◌≤◌, ◌<◌, length};
ghost use Rattle.content.specs.Halves.{bits_of, starting_with};
ghost use Rattle.content.specs.Packing.{group_bits};
ghost use Rattle.bits.specs.Fields.{words};
ghost use Rattle.word.specs.Compose.{is_index};
ghost use Rattle.report.specs.InterRoad.{content_of};
ghost use Rattle.report.specs.Fits.{single_fits, multi_fits};
ghost use Rattle.report_write.specs.Write.{index_fits, write_report, words_after, answer_for, buffer_after, single_words, tail_words, multi_words};

use content::content::Content;
use content::pack::pack;
use content::rest::Rest;
use refusal::Refusal;
use report::inter_road::items_at;
use report::{Form, Report};
use word::compose::{first_number, is_index, later_number, single_number};

// Writes the words of a report with a continuity index, 0 for a single-group report and 1 to 6 for a multi-group one, into the first cells of a
// buffer, and gives their number. What is not to be written is refused, then too small a buffer; a refusal leaves the buffer.
pub fn write(report: Report, ci: u8, out: &mut [u64]) -> Result<usize, Refusal>
    ensures value { result ≡ write_report ci report (length out.old) }
    ensures out_after { out.new ≡ words_after ci report out.old }
{
    let form = report.form;
    if !(report.fits() & index_fits(form, ci)) {
        return Err(Refusal::Unfit);
    }
    match form {
        Form::Single => write_single(report, out),
        Form::Multi => write_multi(report, ci, out),
    }
}

// Whether the continuity index is one for the form.
#[tactic(auto, unfolding(crate::specs::Write::index_fits))]
fn index_fits(form: Form, ci: u8) -> bool
    ensures { result ≡ index_fits form ci }
{
    match form {
        Form::Single => ci == 0,
        Form::Multi => is_index(ci),
    }
}

#[tactic(auto, unfolding(crate::specs::Write::single_words, crate::specs::Write::answer_for, crate::specs::Write::buffer_after))]
fn write_single(r: Report, out: &mut [u64]) -> Result<usize, Refusal>
    requires { single_fits r ≡ true }
    ensures value { result ≡ answer_for (single_words r) (length out.old) }
    ensures out_after { out.new ≡ buffer_after (single_words r) out.old }
{
    if out.is_empty() {
        return Err(Refusal::SmallBuffer);
    }
    out[0] = single_number(r.duration, r.diversion, r.head);
    Ok(1)
}

// The first group, the second group with its mark, and the groups after it.
fn write_multi(r: Report, ci: u8, out: &mut [u64]) -> Result<usize, Refusal>
    requires { (multi_fits r ≡ true) × (is_index ci ≡ true) }
    ensures value { result ≡ answer_for (multi_words ci r) (length out.old) }
    ensures out_after { out.new ≡ buffer_after (multi_words ci r) out.old }
{
    let whole = content_of(r);
    let content = whole.bits;
    let end = Content::groups(whole.left);
    if out.len() < end {
        return Err(Refusal::SmallBuffer);
    }
    let bits = content.first_bits(Content::GROUP);
    out[0] = first_number(ci, r.head);
    out[1] = later_number(ci, 1, (end - 2) as u8, bits as u32);
    put_tail(ci, content.shifted_left(Content::GROUP), &mut out[2..end]);
    Ok(end)
}

// The content bits of a multi-group report: its real location, if it has a place for it, and its items.
fn content_of(r: Report) -> Rest
    requires { multi_fits r ≡ true }
    ensures { result ≡ record { bits = starting_with (content_of r); left = length (content_of r) } }
{
    let packed = pack(r.items).unwrap();
    let at = items_at(r.form, r.head);
    Rest {
        bits: packed.content.prefixed(at, r.real as u64),
        left: at + packed.bits,
    }
}

// Fills the cells with the groups after the second.
fn put_tail(ci: u8, content: Content, out: &mut [u64])
    requires { (ci < 8) × (length out.old ≤ 3) }
    ensures { out.new ≡ tail_words ci (words group_bits (length out.old) (bits_of content)) }
{
    let n = out.len();
    let mut rest = content;
    for (i, cell) in out.iter_mut().enumerate() {
        let bits = rest.first_bits(Content::GROUP);
        *cell = later_number(ci, 0, (n - 1 - i) as u8, bits as u32);
        rest = rest.shifted_left(Content::GROUP);
    }
}
