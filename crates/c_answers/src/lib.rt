// What the calls for C answer (include/alertc.h): structs of numbers, made from what the library answers. Every one has `refusal`: 0, or the number
// of the refusal, beside which the other fields are 0 unless it is said otherwise. `broken` is `NOT_BROKEN` unless content breaks.
#![tactic(auto)]

pub mod carriers;
pub mod refusals;
pub mod reports;
pub mod tables;
pub mod words;
