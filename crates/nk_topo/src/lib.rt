//! Switches with their ports, and the links between ports.
#![tactic(auto)]

mod builder;
mod search;
mod topo;

pub use builder::TopoBuilder;
pub use topo::{LinkEnd, Topo, TopoError};
