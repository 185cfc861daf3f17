//! Operations whose answers a store keeps.
use crate::node::Id;

/// An operation on diagrams whose answers a store keeps.
#[derive(Clone, Copy, PartialEq, Eq)]
pub enum Operation {
    /// Both leaves together.
    Union,
    /// The second leaf where the first one isn't empty, else none.
    Both,
    /// The packet as it is where the first leaf is empty, else none.
    Negate,
    /// The outs of the first leaf that the second one lacks.
    Missing,
    /// What the second diagram makes of what the first one gives.
    Seq,
    /// The first leaf, each act with exactly the assignments that change the packet.
    Split,
}

/// What an answer is found by: the operation and its diagrams, in order.
#[derive(Clone, Copy, PartialEq, Eq)]
pub struct Key {
    pub operation: Operation,
    pub left: Id,
    pub right: Id,
}
