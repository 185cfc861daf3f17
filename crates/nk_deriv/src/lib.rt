//! The observation and the derivatives of a policy, as policies: for the policy itself, and for what is left of it after
//! each of its dups, where it ends without a record and what it records first (Foster et al., POPL 2015).
#![tactic(auto)]

pub mod derivatives;
mod first;
mod rest;
mod turns;
mod values;

pub use values::{Part, Parts};
