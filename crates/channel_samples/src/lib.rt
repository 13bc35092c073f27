// Module 9 of the scope: what is asked of a block's samples, and their normalisation before they are tracked.
#![tactic(auto)]

pub mod limits;
pub mod normalisation;
