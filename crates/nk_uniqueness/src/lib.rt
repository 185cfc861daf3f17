//! Laws, and no code: answers are fixed.
#![tactic(auto)]

pub mod laws;
