//! Any number of copies of a diagram, one after another.
#![tactic(auto)]

mod differences;
mod stars;

pub use stars::{laws, star};
