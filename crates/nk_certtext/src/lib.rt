//! The text of certificates.
#![tactic(auto)]

mod error;
pub mod laws;
mod reader;
mod reading;
mod rows;
mod text;

pub use error::{CertError, TextError};
pub use reader::CertReader;
pub use reading::read_cert;
pub use text::{cert_text, certificate_text};
