//! Sets of labels with their packets, and the goals that are broken at some of them.
#![tactic(auto)]

mod entries;
mod goal;

pub use entries::Entries;
pub use goal::{Goal, any_violation};
