//! Diagrams made deterministic: each act of a leaf assigns exactly the fields that it changes, and a set of labels has
//! one diagram, which sends each packet to the set of all labels that record it next.
#![tactic(auto)]

mod assigned;
mod branches;
mod changing;
mod levels;
mod sets;
mod splits;
mod states;
mod targets;

pub use levels::Levels;
pub use sets::{SetId, Sets};
pub use splits::{mean_same, split};
pub use states::{regroup, state, state_at, state_of, states_at};
pub use targets::retarget;
