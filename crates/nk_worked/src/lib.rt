//! Laws, and no code: worked examples in which the premises of other laws hold.
#![tactic(auto)]

pub mod laws;
