// Where a report of a service is: at home, in the service's own location table, or in a foreign one.
ghost use Rattle.std.specs.Prelude.{◌≡◌};
ghost use Rattle.record.specs.Locations.{location_of, at_home, head_location, real_location};

use crate::Service;
use location::Location;
use report::Report;
use report::inter_road::is_inter_road;

impl Service {
    // The location of a report: if it is INTER-ROAD, its real location in the table that its FLT code stands for, else its location in
    // the service's own table.
    #[tactic(auto, unfolding(crate::specs::Locations::location_of))]
    pub fn location_of(self, report: Report) -> Location
        ensures { result ≡ location_of self report }
    {
        if is_inter_road(report.form, report.head) {
            Location::foreign(report.head.location, report.real)
        } else {
            Location {
                country: self.country,
                ltn: self.ltn,
                code: report.head.location,
            }
        }
    }

    // Whether a location is in the service's own table.
    pub fn is_home(self, l: Location) -> bool
        ensures { result ≡ at_home self l }
    {
        (l.country == self.country) & (l.ltn == self.ltn)
    }

    // How a report gives a location. The location of its head: the code at home, else the FLT code of the table.
    #[tactic(auto, unfolding(crate::specs::Locations::head_location))]
    pub fn head_location(self, l: Location) -> u16
        ensures { result ≡ head_location self l }
    {
        if self.is_home(l) { l.code } else { l.flt() }
    }

    // And its real location: none (0) at home, else the code.
    #[tactic(auto, unfolding(crate::specs::Locations::real_location))]
    pub fn real_location(self, l: Location) -> u16
        ensures { result ≡ real_location self l }
    {
        if self.is_home(l) { 0 } else { l.code }
    }
}
