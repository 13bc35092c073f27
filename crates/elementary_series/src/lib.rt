// What is left of fixed point in a u64: near 1 the logarithm, and the remainder of a large angle.
// Begun, and used by nothing yet: the elementary functions by tables are to rest on it (docs/PORT.md, "Unfinished work").
#![tactic(auto)]

pub mod conversion;
pub mod product;
