// Module 3 of the scope, for speed: the 36 covariance numbers of a tracker of one frequency as two halves of nine.
// While the two channels share no covariance a step costs half the work.
#![tactic(auto)]

pub mod correction;
pub mod half;
pub mod joining;
pub mod prediction;
