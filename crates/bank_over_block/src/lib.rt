// Module 7 of the scope: the three trackers of a bank over the samples of a block.
#![tactic(auto)]

pub mod following;
