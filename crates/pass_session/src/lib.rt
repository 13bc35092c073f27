// A pass text led line by line through a channel (the scope, "The pass text and its list").
// The line of a block, any line by what is due, and the lines of a chunk of the text. What they mean is in pass_setup.
#![tactic(auto)]

pub mod block;
pub mod judge;
pub mod run;
