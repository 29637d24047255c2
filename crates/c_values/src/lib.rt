// The library's values as C has them (include/alertc.h): structs of numbers, made from the library's own and turned back into them.
#![tactic(auto)]

pub mod reports;
pub mod runs;
pub mod states;
pub mod systems;
pub mod words;
