// The C interface: thin functions over the crates below, declared in include/gibsumac.h.
#![tactic(auto)]

mod calls;
mod elementary;
mod version;
