//! Laws, and no code: what `nk_address` does twice, and there and back.
#![tactic(auto)]

pub mod laws;
