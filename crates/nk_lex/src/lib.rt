//! The tokens of a text: names, keywords, numbers and symbols, each with its span and its line.
//!
//! White space is the space, tab, carriage return and line feed. `#` begins a comment that runs to
//! the line feed or to the end. A name is a letter or `_`, then letters, digits and `_`; a number is
//! one or more digits. Of two symbols that begin at one byte the longer is taken. Any other byte
//! is a bad byte. The line of a byte is 1 plus the line feeds before it.
//!
//! `tokens` reads a whole text, and a `Feed` one that comes in pieces.
#![tactic(auto)]

mod bytes;
mod classes;
mod feeding;
mod front;
mod ident;
mod kind;
mod laws;
mod lexemes;
mod piece_laws;
mod quad;
mod settling;
mod token;
mod unfinished;

pub use bytes::Bytes;
pub use feeding::Feed;
pub use ident::{Ident, Number, ident_of};
pub use kind::Kind;
pub use laws::{
    a_line_is_one_more_than_the_line_feeds_before, a_name_is_one, a_name_is_what_stands_there,
    a_number_has_the_value_of_its_digits, a_text_of_lexemes_is_cut_into_them, lexemes_are_moved,
    spans_ascend, texts_are_joined, values_are_small,
};
pub use lexemes::tokens;
pub use piece_laws::{a_fault_stays, complete_tokens_stay};
pub use quad::{Quad, QuadNext};
pub use token::{LARGEST, LexError, Token};
