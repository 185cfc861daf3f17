//! A list of bytes inside another type.
ghost use Rattle.std.specs.Prelude.{◌≡◌, IfOk};

use std::alloc::{AllocError, Global};
use std::marker::Model;

/// The bytes of a text, which contracts see as a list.
#[derive(Drop)]
pub struct Bytes {
    text: String,
}

impl Model for Bytes {
    ghost use Rattle.std.specs.Prelude.{List, ℕ, string_bytes};

    ghost Value = { List ℕ };

    ghost view = { λ b. string_bytes b.text };
}

impl Bytes {
    /// A copy of a text's bytes. The only error is that memory ran out.
    pub fn of_text(alloc: Global, text: &str) -> Result<Bytes, AllocError>
        ensures { IfOk result (λ b. b ≡ text.now) }
    {
        let text = String::from_str(alloc, text)?;
        Ok(Bytes { text })
    }

    /// The text.
    pub fn as_str(&self) -> &str
        ensures { result.now ≡ self.now }
    {
        self.text.as_str()
    }
}
