//! Answers that follow a packet: those of `trace` and `fly`, over the tables of a text.
#![tactic(auto)]

mod flying;
mod following;
mod tracing;

pub use flying::fly_reply;
pub use following::{Follow, answer_to_word, push_counts, push_history};
pub use tracing::trace_reply;
