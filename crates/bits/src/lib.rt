// Bit fields in bytes, the highest bit first: fields, runs of fields of one width, and stretches of zeros.
// These are inner calls: each asks of its caller that the fields lie within the bytes and, where it counts on from bit to
// bit, that the bits of the bytes can be counted in a usize.
#![tactic(auto)]

pub mod bytes;
pub mod field;
pub mod run;
pub mod zero;
