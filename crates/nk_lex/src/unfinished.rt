//! The lexeme that is still open where a piece of a text ends.

use crate::LexError;

/// What the bytes so far leave open at their end, or the text's first fault.
#[derive(Clone, Copy, Debug, PartialEq, Eq)]
pub enum Pending {
    /// Nothing: no further byte can make the last lexeme longer.
    Nothing,
    /// A comment.
    Comment,
    /// A number: the index of its first byte, and its value, which stops above `LARGEST`.
    Number { start: usize, value: u64 },
    /// A name or a symbol, whose bytes are held.
    Held,
    /// A fault came.
    Fault(LexError),
}
