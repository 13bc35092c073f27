// Module 9 of the scope: assign, release and figures, the calls that take no samples and need a channel.
// No call asks anything of its caller; what each means is in channel_model.
// Functions, and no methods: a channel is a type of a crate below, where alone it can have methods.
#![tactic(auto)]

pub mod assign;
pub mod figures;
pub mod release;
