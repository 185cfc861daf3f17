//! The difference of two policies, exactly: from which packets either has a history that the other one hasn't, as predicates.
#![tactic(auto)]

pub mod laws;
mod named;
mod predicates;
mod sides;

pub use named::named_difference;
pub use predicates::Difference;
pub use sides::difference;
