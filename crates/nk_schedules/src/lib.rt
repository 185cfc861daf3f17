//! What flights through tables that carry a policy come to: laws, and no code.
#![tactic(auto)]

pub mod laws;
