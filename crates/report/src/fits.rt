// The test of a report, as a writer tests it, the continuity index apart.
ghost use Rattle.std.specs.Prelude.{◌≡◌, ◌≤◌, ◌&&◌};
ghost use Rattle.content.specs.Stored.{limit};
ghost use Rattle.report.specs.Fits.{report_fits, real_fits, single_fits, agrees, items_fit, content_fits, multi_fits};

use crate::inter_road::{is_inter_road, items_at};
use crate::read::{diversion, duration};
use crate::{Form, Report};
use content::content::Content;
use content::pack::pack;
use word::Head;
use word::compose::{head_fits, single_fits};

impl Report {
    // Whether a writer takes the report: its fields in their ranges, items that can be written, unused places zero, no items on a
    // single-group report, a duration and a diversion that agree with the items of a multi-group one, and a real location only where there is
    // a place for it.
    #[tactic(auto, unfolding(crate::specs::Fits::report_fits, crate::specs::Fits::fits_by))]
    pub fn fits(self) -> bool
        ensures { result ≡ report_fits self }
    {
        if !real_fits(self.form, self.head, self.real) {
            return false;
        }
        match self.form {
            Form::Single => single_report_fits(self),
            Form::Multi => multi_report_fits(self),
        }
    }
}

// Whether the real location is within the bits of its place.
fn real_fits(form: Form, head: Head, real: u16) -> bool
    ensures { result ≡ real_fits form head real }
{
    (real == 0) | is_inter_road(form, head)
}

#[tactic(auto, unfolding(crate::specs::Fits::single_fits))]
fn single_report_fits(r: Report) -> bool
    ensures { result ≡ single_fits r }
{
    let items = r.items;
    single_fits(r.duration, r.diversion, r.head) & (items.well_placed() & (items.count == 0))
}

#[tactic(auto, unfolding(crate::specs::Fits::multi_fits))]
fn multi_report_fits(r: Report) -> bool
    ensures { result ≡ multi_fits r }
{
    content_fits(r) && (head_fits(r.head) && agrees(r))
}

// Whether the duration and the diversion are those of the items.
#[tactic(auto, unfolding(crate::specs::Fits::agrees))]
fn agrees(r: Report) -> bool
    requires { r.items.count ≤ limit }
    ensures { result ≡ agrees r }
{
    let items = r.items.listed();
    (r.duration as u16 == duration(items)) & (r.diversion == diversion(items))
}

// Whether the items can be written, the unused places are zero, and five groups have room for the real location and the items.
fn content_fits(r: Report) -> bool
    ensures { result ≡ items_fit r.items && content_fits r }
{
    match pack(r.items) {
        Ok(packed) => items_at(r.form, r.head) + packed.bits <= Content::LONGEST,
        Err(_) => false,
    }
}
