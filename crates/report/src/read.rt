// From the groups of a message to its report.
ghost use Rattle.std.specs.Prelude.{◌≡◌, ◌≤◌, true, take, find};
ghost use Rattle.std.specs.List.{list_any};
ghost use Rattle.content.specs.Halves.{bits_of, remaining};
ghost use Rattle.content.specs.Packing.{all_fit, longest};
ghost use Rattle.content.specs.Stored.{limit, filled, listed};
ghost use Rattle.report.specs.Report.{single_report, multi_report, blank as Report·blank, is_duration, is_diversion, duration_of, diversion_of};
ghost use Rattle.content.specs.declared.rest.Broken as declared;
ghost use Rattle.content.specs.declared.read.Unread.TheVariants as unread;
ghost use Rattle.report.specs.Read.{placed, read_items, read_bits};

use crate::inter_road::items_at;
use crate::{Form, Report, Unreadable};
use content::content::Content;
use content::item::Item;
use content::items::Items;
use content::read::Unread;
use content::rest::{Broken, Rest};
use refusal::Refusal;
use word::Head;

impl Report {
    // The report that stands where there is none.
    pub fn new() -> Self
        ensures { result ≡ Report·blank }
    {
        Report::single(0, 0, Head::default())
    }

    // The report of a single-group message.
    pub fn single(duration: u8, diversion: u8, head: Head) -> Self
        ensures { result ≡ single_report duration diversion head }
    {
        Report {
            form: Form::Single,
            head,
            real: 0,
            diversion,
            duration,
            items: Items::new(),
        }
    }

    // The report of a multi-group message, from its head and its content, which is the first `size` bits: refused for a length that no groups
    // give; broken as items are read, with the place in the whole content.
    pub fn multi(head: Head, content: Content, size: usize) -> Result<Report, Unreadable>
        ensures { result ≡ read_bits head (take size (bits_of content)) }
    {
        if !Content::is_length(size) {
            return Err(Refusal::WrongLength.into());
        }
        let at = items_at(Form::Multi, head);
        let whole = Rest {
            bits: content,
            left: size,
        };
        let rest = whole.tail(at);
        read_items(head, whole.head(at) as u16, size, rest)
    }

    // The report of a multi-group message, from its head, its real location and the first `size` bits, which hold its items alone: refused and
    // broken as items are read, with the place in these bits.
    pub fn with_items(
        head: Head,
        real: u16,
        content: Content,
        size: usize,
    ) -> Result<Report, Unreadable>
        ensures { result ≡ read_items head real size (take size (bits_of content)) }
    {
        let rest = Rest {
            bits: content,
            left: size,
        };
        read_items(head, real, size, rest)
    }
}

// The report of items that are the rest of a content of `whole` bits.
fn read_items(head: Head, real: u16, whole: usize, rest: Rest) -> Result<Report, Unreadable>
    requires { rest.left ≤ longest → (rest.left ≤ whole) × (whole ≤ longest) }
    ensures { result ≡ read_items head real whole (remaining rest) }
{
    match content::read::read(rest.bits, rest.left) {
        Ok(items) => Ok(of_items(head, real, items)),
        Err(unread) => Err(placed(whole, unread)),
    }
}

// Why there is no report: the place is how many of `whole` bits of content stand before those that are left.
#[tactic(auto, unfolding(crate::specs::Read::placed))]
fn placed(whole: usize, cause: Unread) -> Unreadable
    requires { (broken : declared.Broken) → cause ≡ unread.Broken broken → (broken.left ≤ whole) × (whole ≤ longest) }
    ensures { result ≡ placed whole cause }
{
    match cause {
        Unread::TooLong => Unreadable::Refused(Refusal::WrongLength),
        Unread::Broken(Broken { refusal, left }) => Unreadable::Broken {
            refusal,
            place: (whole - left as usize) as u8,
        },
    }
}

// The report of items as content is read.
fn of_items(head: Head, real: u16, items: Items) -> Report
    requires { (items.count ≤ limit) × (all_fit (listed items) ≡ true) × (filled (listed items) ≡ items) }
    ensures { result ≡ multi_report head real (listed items) }
{
    let used = items.listed();
    Report {
        form: Form::Multi,
        head,
        real,
        diversion: diversion(used),
        duration: duration(used) as u8,
        items,
    }
}

// The value of the first label 0 item, or 0.
pub(crate) fn duration(items: &[Item]) -> u16
    ensures { result ≡ duration_of items.now }
{
    match duration_item(items) {
        Some(item) => item.value,
        None => 0,
    }
}

// The first label 0 item.
fn duration_item(items: &[Item]) -> Option<Item>
    ensures { result ≡ find is_duration items.now }
{
    items.iter().copied().find(|item| item.label == 0)
}

// 1 if an item is label 1 value 5, else 0.
pub(crate) fn diversion(items: &[Item]) -> u8
    ensures { result ≡ diversion_of items.now }
{
    diverts(items) as u8
}

// Whether an item is label 1 value 5.
fn diverts(items: &[Item]) -> bool
    ensures { result ≡ list_any is_diversion items.now }
{
    items
        .iter()
        .any(|item| (item.label == 1) & (item.value == 5))
}
