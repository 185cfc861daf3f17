//! Queries: which histories break one, the policy that has exactly these histories, whether there is one, and certificates that
//! there is none.
#![tactic(auto)]

mod asking;
mod avoided;
mod building;
mod error;
mod judging;
pub mod laws;
mod measure;
mod naming;
mod query;

pub use asking::ask;
pub use error::QueryError;
pub use judging::check_query;
pub use naming::question;
pub use query::{Answer, Query};
