//! Declarations of fields, the tag, switches and links: what they say one after the other, and their first fault.
//!
//! Texts of programs and texts of tables declare alike. What is declared is a table of fields and a topology; the checks of
//! each declaration come in one order, and each fault has a name and the line of its name or number.
#![tactic(auto)]

mod check;
mod declare;
mod fault;
mod messages;
mod names;

pub use check::Ports;
pub use declare::Declared;
pub use fault::{DeclareError, DeclareFault};
pub use names::field_with;
