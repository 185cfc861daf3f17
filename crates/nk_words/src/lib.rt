//! The words of the command line, read as commands.
#![tactic(auto)]

mod bytes;
mod number;
mod words;

pub use bytes::Bytes;
pub use words::{Command, WordsError, read_words};
