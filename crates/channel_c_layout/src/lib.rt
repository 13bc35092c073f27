// The channel in the layout of C, for callers in other languages: no enums, and every number in its place. include/gibsumac.h has the same
// structs. What the exported functions return and leave is in specs/Calls.antt.
#![tactic(auto)]

pub mod plain_calls;
pub mod plain_channel;
pub mod plain_tracker;
