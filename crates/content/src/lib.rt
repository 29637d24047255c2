// Optional content of multi-group messages, 28 to 112 bits: the items that it holds, both ways.
// `read` and `pack` take whatever they are given; calls of `Content` are inner ones, and ask of their caller what their
// `requires` say.
#![tactic(auto)]

pub mod content;
pub mod item;
pub mod items;
pub mod pack;
pub mod read;
pub mod rest;
mod width;
