// A record of the message table made from a report, and read back.
#![tactic(auto)]

pub mod make;
pub mod read;

use clock::Utc;
use record::Service;
use report::Report;

// What a record keeps beside the update classes: a report, its service and when it ends.
#[derive(Clone, Copy)]
pub struct Kept {
    pub report: Report,
    pub service: Service,
    pub expiry: Utc,
}
