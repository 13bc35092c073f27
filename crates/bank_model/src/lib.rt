// Module 7 of the scope: the values of a bank of three trackers, and in specs/ all that a bank does.
#![tactic(auto)]

pub mod state;
