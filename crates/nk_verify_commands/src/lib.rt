//! Answers about policies that are compared, with one another or with a query, and about the certificates of such answers: those of
//! `equal`, `check`, `apart`, `waypoint`, `check_apart` and `check_waypoint`.
#![tactic(auto)]

mod asking;
mod certified_text;
mod checking;
mod comparing;
mod judging;
mod messages;

pub use asking::{apart_query, ask_answer, waypoint_query};
pub use checking::check_reply;
pub use comparing::equal_answer;
pub use judging::{check_apart_reply, check_waypoint_reply};
pub use messages::difference_message;
