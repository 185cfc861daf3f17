//! What a policy's text shows without running it: why no tables are made of it, and why its literals are no links.
#![tactic(auto)]

mod faults;
mod leaf_test;
mod links;

pub use faults::{StaticFault, static_fault, static_fault_among};
