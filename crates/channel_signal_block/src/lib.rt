// Module 9 of the scope: what a block with a signal does to an assigned channel.
// Functions, and no methods: a channel is a type of a crate below, where alone it can have methods.
#![tactic(auto)]

pub mod signal;
pub mod track;
