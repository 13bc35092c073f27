// Modules 1 and 2 of the scope: the code of the square root and of the hypotenuse.
// A root is guessed by floats, and the guess is checked in whole numbers. What a root and a hypotenuse are is in ieee754.
#![tactic(auto)]

mod goldschmidt;
pub mod hypotenuse;
mod short_root;
pub mod square_root;
