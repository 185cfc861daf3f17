//! Sets of labels whose states give the same histories: the classes of tags, and what tells two sets apart.
#![tactic(auto)]

mod classes;
mod disjoint_copy;
mod distinguishing;
mod joined;
pub mod laws;
mod together;

pub use classes::{Classes, classes_of};
pub use disjoint_copy::DisjointCopy;
pub use distinguishing::distinguish;
