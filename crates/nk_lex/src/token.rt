//! Tokens, and the faults of a text's bytes.
ghost use Rattle.std.specs.Prelude.{◌≡◌};
ghost use Rattle.nk_lex.specs.declared.token.LexError.TheVariants.{NoMemory};

use crate::{Bytes, Kind};
use std::alloc::AllocError;
use thiserror::Error;

/// The largest number that a text may have: 2^48 - 1.
pub const LARGEST: u64 = 281_474_976_710_655;

/// A token: its kind, the span of the bytes that it is, and the line that it begins on.
#[derive(Drop)]
pub struct Token {
    /// What it is.
    pub kind: Kind,
    /// The index of its first byte in the text.
    pub start: usize,
    /// The index after its last byte.
    pub end: usize,
    /// The line of its first byte, from 1 on.
    pub line: u64,
    /// A number's value, at most `LARGEST`; else 0.
    pub value: u64,
    /// A name's or a keyword's bytes; else empty.
    pub text: Bytes,
}

/// Why a text has no tokens: its first fault, or that memory ran out.
#[derive(Clone, Copy, Debug, PartialEq, Eq, Error)]
pub enum LexError {
    /// Memory ran out.
    #[error("no memory")]
    NoMemory,
    /// A byte that begins no lexeme.
    #[error("line {line}: bad byte")]
    BadByte {
        /// The line of the byte.
        line: u64,
    },
    /// A number above `LARGEST`.
    #[error("line {line}: number too large")]
    NumberTooLarge {
        /// The line of the number.
        line: u64,
    },
}

impl From<AllocError> for LexError {
    ghost from_gives = { λ _ e. e ≡ NoMemory };

    fn from(_: AllocError) -> Self {
        LexError::NoMemory
    }
}
