// Module 3 of the scope, for speed: prediction and update of a tracker of one frequency whose covariance is in two halves.
// The halves are the first channel's and the second's, with nothing between them: half of the work on the 36 numbers. Each function has one
// caller, so that the compiler copies no tracker.
#![tactic(auto)]

pub mod prediction;
pub mod state;
pub mod update;
