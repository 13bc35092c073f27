// A pass text: all definitions of its list, and the code of its first three lines and of its end (the scope, "The pass text and its list").
// The first three lines open the channel. specs/ has what every line means and, in Listing.antt, the whole list of a whole text.
#![tactic(auto)]

pub mod ending;
pub mod pass;
pub mod setup;
