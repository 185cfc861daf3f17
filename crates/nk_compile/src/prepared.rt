//! A policy whose tags can be numbered.
use nk_determ::{Levels, Sets};
use nk_field::List;
use nk_store::{Id, Store};

/// A policy's automaton in a store of its own, and the levels of its states from the located untagged packets.
#[derive(Drop)]
pub struct Prepared {
    /// The store.
    pub store: Store,
    /// The automaton's states.
    pub states: List<Id>,
    /// The sets of labels that the levels name.
    pub sets: Sets,
    /// The levels.
    pub levels: Levels,
}
