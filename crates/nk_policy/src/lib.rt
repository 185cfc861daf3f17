//! Policies: their trees, what is read off a tree, trees made from others, their text, and the laws of their runs.
#![tactic(auto)]

mod all_histories;
pub mod laws;
mod measure;
mod policy;
mod rebuild;
mod text;

pub use all_histories::histories;
pub use measure::{depth, dups, is_predicate, may_record, size};
pub use policy::{Pol, Pols};
pub use rebuild::{expand_links, marked};
pub use text::pol_text;
