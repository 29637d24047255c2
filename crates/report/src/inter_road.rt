// INTER-ROAD messages: the location is a foreign location table (FLT) code, and the real location stands before the items.
ghost use Rattle.std.specs.Prelude.{◌≡◌};
ghost use Rattle.report.specs.InterRoad.{inter_road, items_at};

use crate::Form;
use location::Location;
use word::Head;

// The content bits of a real location.
const REAL_LOCATION: usize = 16;

// Whether the message is multi-group and its location an FLT code.
#[tactic(auto, unfolding(crate::specs::InterRoad::inter_road))]
pub fn is_inter_road(form: Form, head: Head) -> bool
    ensures { result ≡ inter_road form head }
{
    match form {
        Form::Single => false,
        Form::Multi => Location::is_flt(head.location),
    }
}

// The content bit at which the items begin.
#[tactic(auto, unfolding(crate::specs::InterRoad::items_at))]
pub fn items_at(form: Form, head: Head) -> usize
    ensures { result ≡ items_at form head }
{
    if is_inter_road(form, head) {
        REAL_LOCATION
    } else {
        0
    }
}
