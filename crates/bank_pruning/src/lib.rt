// Module 7 of the scope: how far apart the trackers of a bank are, and which of them are dropped.
// Functions, and no methods: a bank is a type of a crate below, where alone it can have methods.
#![tactic(auto)]

pub mod discrepancy;
pub mod pruning;
