//! Virtual links over fabrics: the physical policy of a virtual one, which histories it has, and whether a fabric carries its
//! virtual link.
#![tactic(auto)]

mod building;
mod ends;
mod fabric;
mod flaws;
mod judging;
pub mod laws;
mod literal;
mod measure;
mod naming;
mod questions;
mod refusal;

pub use fabric::FabricLink;
pub use judging::{Carriage, carriage_of};
pub use naming::physical;
pub use refusal::{VirtualError, VirtualRefusal};
