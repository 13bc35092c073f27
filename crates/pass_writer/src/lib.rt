// Writing a line of the list of a pass into a lent buffer (the scope, "The pass text and its list").
#![tactic(auto)]

pub mod digits;
pub mod lines;
