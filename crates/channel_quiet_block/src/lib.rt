// Module 9 of the scope: what is asked of a block before it is accepted, and what a block without a signal does to a channel.
// Functions, and no methods: a channel is a type of a crate below, where alone it can have methods.
#![tactic(auto)]

pub mod quiet;
pub mod refusals;
