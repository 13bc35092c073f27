// Module 7 of the scope, for speed: three trackers of a bank that are equal with all that is theirs are told, and run as one.
#![tactic(auto)]

pub mod once;
pub mod same;
pub mod trackers;
