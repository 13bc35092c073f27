// Modules 8 and 9 of the scope: what a tracker shows, what a channel answers, and the two marks that more than one call changes.
// Functions, and no methods: a channel is a type of a crate below, where alone it can have methods.
#![tactic(auto)]

pub mod answers;
pub mod reading;
pub mod values;
