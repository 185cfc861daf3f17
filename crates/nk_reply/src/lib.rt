//! What a run answers, how its answer is written, and how it ends.
#![tactic(auto)]

pub mod messages;
mod reply;
mod status;

pub use reply::{CommandAnswer, Reply, deliver, deliver_text};
pub use status::Status;
