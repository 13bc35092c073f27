// Module 7 of the scope: the code of a tracker over the samples of a block, on its stretch of the window memory.
// The stretch is a slice and no array of 2,048: the scope has a channel lend `&mut w[2048*i..2048*(i+1)]`.
#![tactic(auto)]

mod apart;
mod block;
pub mod lists;
mod step;
pub mod stretch;
