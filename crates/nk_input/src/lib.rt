//! The input of a command: a source that is read piece by piece, and the program of a text, or the line of its first fault.
#![tactic(auto)]

mod faults;
mod pieces;
mod program_text;
mod program_tokens;

pub use faults::text_fault;
pub use pieces::{Lexed, TokenReader, read_pieces};
pub use program_text::{ReadText, read_program};
