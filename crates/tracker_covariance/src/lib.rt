// Module 3 of the scope, the covariance: the 36 numbers, row by row, and the six states, through prediction and correction.
#![tactic(auto)]

pub mod correction;
pub mod initial;
pub mod prediction;
pub mod states;
