//! What may come next in a policy.
ghost use Rattle.std.specs.Prelude.{◌≡◌};

use nk_lex::{Ident, Number, Quad};

/// What has been read before the next token of a policy.
#[derive(Drop)]
pub enum Place {
    /// An atom is wanted.
    Want,
    /// A name, which `=`, `in` or `:=` may follow.
    Named(Ident),
    /// A name and `=`.
    Tested(Ident),
    /// A name and `in`.
    Ranged(Ident),
    /// A name, `in` and the first value.
    RangedFrom(Ident, Number),
    /// A name, `in`, the first value and `..`.
    RangedTo(Ident, Number),
    /// A name and `:=`.
    Assigned(Ident),
    /// A part of a link literal.
    Linked(Quad),
    /// A factor, with a star or without.
    After(bool),
}

impl Place {
    /// Another place takes this one's. Inlined, it writes the parts of the new place alone.
    #[inline(always)]
    pub fn set(&mut self, place: Place)
        ensures { self.new ≡ place }
    {
        *self = place;
    }
}
