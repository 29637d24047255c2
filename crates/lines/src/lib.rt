// The lines of a listing, as text in a lent buffer. Each call puts its text at a position of the buffer and answers the position after it.
// These are inner calls: each asks of its caller that there is room.
#![tactic(auto)]

pub mod line;
mod text;
