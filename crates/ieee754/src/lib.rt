// Module 1 of the scope: Rust's functions on floats, each equal to a definition of specs/ for every argument.
// The square root and the hypotenuse are defined here, too; their code is in ieee754_roots.
#![tactic(auto)]

pub mod conversion;
pub mod integral;
pub mod order;
pub mod pattern;
pub mod remainder;
pub mod sign;
