// Reports.
ghost use Rattle.std.specs.Prelude.{◌≡◌};
ghost use Rattle.c_values.specs.Reports.{plain_of, report_from};

use content::items::Items;
use report::{Form, Report};
use word::Head;

// A report whose form is a number: 0 for a single-group and 1 for a multi-group one. Its `real` is the header's `real_location`.
#[repr(C)]
#[derive(Clone, Copy)]
pub struct PlainReport {
    pub items: Items,
    pub head: Head,
    pub real: u16,
    pub diversion: u8,
    pub duration: u8,
    pub form: u8,
}

// A report as C has it.
impl From<Report> for PlainReport {
    ghost from_gives = { λ report plain. plain ≡ plain_of report };

    fn from(report: Report) -> Self {
        PlainReport {
            items: report.items,
            head: report.head,
            real: report.real,
            diversion: report.diversion,
            duration: report.duration,
            form: match report.form {
                Form::Single => 0,
                Form::Multi => 1,
            },
        }
    }
}

// The report; where the form is another number, one of 29 items: each call refuses it in its turn.
impl From<PlainReport> for Report {
    ghost from_gives = { λ plain report. report ≡ report_from plain };

    fn from(plain: PlainReport) -> Self {
        let form = plain.form;
        let count = plain.items.count;
        Report {
            items: Items {
                places: plain.items.places,
                count: if form <= 1 { count } else { Items::LIMIT + 1 },
            },
            head: plain.head,
            real: plain.real,
            diversion: plain.diversion,
            duration: plain.duration,
            form: if form == 0 { Form::Single } else { Form::Multi },
        }
    }
}
