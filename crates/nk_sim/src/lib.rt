//! Packets followed through tables, hop by hop.
#![tactic(auto)]

mod finder;
pub mod laws;
mod links;
mod sending;
mod tracing;
mod transit;

pub use finder::Finder;
pub use links::{is_located, leaves_at, link_at};
pub use sending::{emit, emit_by};
pub use tracing::{Traced, runs, trace};
