//! Prefixes of binary digits, as switches match them by a mask, and the intervals of values that are cut into them.
#![tactic(auto)]

mod cutting;
pub mod laws;

pub use cutting::{agrees, blocks, digits_of};
