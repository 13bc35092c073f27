// Module 3 of the scope: the carrier tracker, an extended Kalman filter with phase, frequency and chirp of two channels as its states.
#![tactic(auto)]

pub mod correction;
pub mod first;
mod gain;
pub mod lock;
pub mod prediction;
pub mod second;
pub mod state;
mod update;
