//! The answer of `compact`: merged tables, and after them why no two of their tags are one.
#![tactic(auto)]

mod compacting;
pub mod laws;

pub use compacting::compact_answer;
