// Sums in ascending order, complex numbers, and lists of them that stand re, im, re, im, ...
// Definitions are in specs/, and in proofs/ the laws by which a loop that adds or that writes such a list meets them.
#![tactic(auto)]

pub mod complex;
