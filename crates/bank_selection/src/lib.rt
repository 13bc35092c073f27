// Module 7 of the scope: which tracker of a bank is used, its fade, and the figures that describe the bank.
// Functions, and no methods: a bank is a type of a crate below, where alone it can have methods.
#![tactic(auto)]

pub mod choice;
pub mod fade;
pub mod features;
