//! Compilation with few tags: the tables of a named policy where alike tag sets share a tag, and what tells these tags apart.
#![tactic(auto)]

mod compact;
mod histories;
pub mod laws;
mod merged;
mod met;
mod switch_classes;

pub use compact::{Compact, DistinguishingHistory, compile_compact};
