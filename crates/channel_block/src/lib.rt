// Module 9 of the scope: block, the call that takes samples.
// Open is in channel_open, the other three calls in channel_control. No call asks anything of its caller; what each means is in channel_model.
// Functions, and no methods: a channel is a type of a crate below, where alone it can have methods.
#![tactic(auto)]

pub mod block;
