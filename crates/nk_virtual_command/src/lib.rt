//! The answer of `virtual`: the tables of a policy over virtual links.
#![tactic(auto)]

mod messages;
mod virtualizing;

pub use virtualizing::virtual_answer;
