//! Laws, and no code: there is one answer.
#![tactic(auto)]

pub mod laws;
