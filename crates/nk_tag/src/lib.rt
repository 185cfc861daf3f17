//! The sets of labels at levels, in order: tag numbers are the places of those at odd levels.
#![tactic(auto)]

mod error;
mod numbers;

pub use error::NumberError;
pub use numbers::{Tags, later_sets, number, number_from, odd_sets};
