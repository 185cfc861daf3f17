//! The commands over bytes: what is read, what is answered, and how a run ends.
#![tactic(auto)]

mod generating;
mod top;

pub use nk_reply::{CommandAnswer, Reply, Status};
pub use top::run;
