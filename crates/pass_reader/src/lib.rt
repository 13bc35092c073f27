// Reading a line of a pass text (the scope, "The pass text and its list").
// A line is handed over with its newline; it is in the form, or outside it, which is refusal 13.
#![tactic(auto)]

pub mod block;
pub mod line;
pub mod number;
pub mod values;
