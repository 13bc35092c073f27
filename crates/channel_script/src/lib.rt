// A channel led through calls by the letters of a script, for the program that runs cases written by hand.
// What is set before a call, and what is then looked at; the program's text says what each letter stands for.
#![tactic(auto)]

pub mod block;
pub mod call;
pub mod change;
pub mod letters;
pub mod look;
pub mod place;
pub mod session;
pub mod set;
