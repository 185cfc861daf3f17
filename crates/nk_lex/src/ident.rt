//! Words and numbers of a text, with their lines.
ghost use Rattle.std.specs.Prelude.{◌≡◌, IfOk};

use crate::{Bytes, Token};
use std::alloc::{AllocError, Global};

/// A name with its line.
pub struct Ident {
    /// The name's bytes.
    pub text: Bytes,
    /// The line that it stands on.
    pub line: u64,
}

impl Drop for Ident {
    fn drop(self) {
        let Self { text: _, line: _ } = self;
    }
}

/// A number with its line.
#[derive(Clone, Copy, Debug, PartialEq, Eq)]
pub struct Number {
    /// The number's value.
    pub value: u64,
    /// The line that it stands on.
    pub line: u64,
}

/// A token's text with its line. The only error is that memory ran out.
pub fn ident_of(alloc: Global, token: &Token) -> Result<Ident, AllocError>
    ensures { IfOk result (λ w. (w.text ≡ token.now.text) × (w.line ≡ token.now.line)) }
{
    Ok(Ident {
        text: token.text.copy(alloc)?,
        line: token.line,
    })
}
