// Module 3 of the scope, the measurement: what one sample says to a tracker.
#![tactic(auto)]

pub mod angle;
pub mod measure;
pub mod modulation;
pub mod noise;
pub mod sample;
