//! Which packets a change touches, over bytes: all of `nk_impact`, from its words and the bytes that it reads to the bytes that it
//! writes.
#![tactic(auto)]

mod answer;
mod text;
mod top;

pub use answer::impact_answer;
pub use nk_reply::Status;
pub use top::impact;
