// A channel, its settings and its answers as the numbers of a line, for the programs that replay lines; and samples made by a rule, for long blocks.
#![tactic(auto)]

pub mod answers;
pub mod arguments;
pub mod built;
pub mod rules;
pub mod standing;
