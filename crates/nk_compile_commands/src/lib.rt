//! Answers with compiled tables: the answer of `compile`, and of `update`, which goes from one policy's tables to another's.
#![tactic(auto)]

mod compiling;
pub mod laws;
mod messages;
mod text_sink;
mod updating;

pub use compiling::compile_answer;
pub use messages::{refusal_message, static_fault_message};
pub use updating::update_answer;
