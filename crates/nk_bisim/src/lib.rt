//! Equality of two named policies of a program, with a certificate or the least history of a difference.
#![tactic(auto)]

mod answer;
mod comparison;

pub use answer::CompareError;
pub use comparison::{compare, compare_owned_program};
pub use nk_cert::Compared;
