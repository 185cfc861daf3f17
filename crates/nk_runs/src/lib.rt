//! Laws, and no code: what the levels of an automaton's states say of its policy.
#![tactic(auto)]

pub mod laws;
