//! What is found of a certificate of equality, and the laws of certificates: what one shows, and that one is printed.
#![tactic(auto)]

mod checking;
mod entries;
mod error;
mod judge;
pub mod laws;
mod naming;
mod packets;

pub use checking::check_policies;
pub use error::CheckError;
pub use naming::{check, check_owned};
