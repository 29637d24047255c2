// The update classes of a report, by the catalogue.
#![tactic(auto)]

ghost use Rattle.std.specs.Prelude.{◌≡◌, ◌<◌};
ghost use Rattle.content.specs.Stored.{listed};
ghost use Rattle.record.specs.Classes.{with_class, set_of};
ghost use Rattle.classes.specs.Events.{additional_events};
ghost use Rattle.classes.specs.Classes.{event_classes, set_for, with_event, with_item};

use content::item::Item;
use content::items::Items;
use lent::catalogue::Entry;
use record::classes::Classes;
use report::Report;

// The label of an additional event.
const ADDITIONAL: u16 = 9;

// The classes of a report: those of all its events.
pub fn of_report(report: Report, catalogue: &[u16]) -> Classes
    ensures { result.0 ≡ set_for catalogue.now report }
{
    with_event(
        of_items(report.items, catalogue),
        report.head.event,
        catalogue,
    )
}

// The classes of the additional events among items, from the last one to the first.
fn of_items(items: Items, catalogue: &[u16]) -> Classes
    ensures { result.0 ≡ set_of (event_classes catalogue.now (additional_events (listed items))) }
{
    let used = items.count.min(Items::LIMIT);
    items.places[..used]
        .iter()
        .rev()
        .fold(Classes::new(), |classes, item| {
            with_item(classes, *item, catalogue)
        })
}

// The classes with one item more at the front, if it is an additional event.
fn with_item(classes: Classes, item: Item, catalogue: &[u16]) -> Classes
    ensures { result ≡ record { 0 = with_item catalogue.now classes.0 item } }
{
    if item.label == ADDITIONAL {
        with_event(classes, item.value, catalogue)
    } else {
        classes
    }
}

// The classes with one event more at the front, if it has a class.
fn with_event(classes: Classes, event: u16, catalogue: &[u16]) -> Classes
    ensures { result ≡ record { 0 = with_event catalogue.now classes.0 event } }
{
    let entry = Entry::of_event(catalogue, event);
    if entry.has_class() {
        with_class(classes, entry.class())
    } else {
        classes
    }
}

// The classes with one more.
fn with_class(classes: Classes, class: u8) -> Classes
    requires { class < 64 }
    ensures { result.0 ≡ with_class classes.0 class }
{
    Classes(classes.0 | 1 << class)
}
