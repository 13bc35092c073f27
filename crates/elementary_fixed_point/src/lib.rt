// Fixed point in a u64: what the elementary functions of module 2 share.
#![tactic(auto)]

pub mod conversion;
pub mod product;
pub mod quotient;
