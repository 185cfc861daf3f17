//! The syntax trees of policies, with the line of each name, number and `~`.
ghost use Rattle.std.specs.Prelude.{◌≡◌};

use nk_lex::{Ident, Number};

/// The parts of a sum or a sequence, in order.
#[derive(Drop)]
#[cycle(ast)]
pub struct Asts {
    /// The parts.
    pub items: Vec<Ast>,
}

/// A policy as it is written. The empty sequence is `id`, and the empty sum is `drop`.
#[derive(Drop)]
#[cycle(ast)]
pub enum Ast {
    /// A name alone: that of a policy that a `let` declares.
    Name(Ident),
    /// `NAME = NUMBER`.
    Test(Ident, Number),
    /// `NAME in NUMBER .. NUMBER`: the name, the first value and the last.
    Range(Ident, Number, Number),
    /// `NAME := NUMBER`.
    Set(Ident, Number),
    /// Several terms, or none, which is `drop`.
    Sum(Asts),
    /// Several factors, or none, which is `id`.
    Seq(Asts),
    /// `~` over an atom, with the line of the `~`.
    Not(Box<Ast>, u64),
    /// An atom with one `*` after it, or several.
    Star(Box<Ast>),
    /// `dup`.
    Dup,
    /// `NUMBER:NUMBER => NUMBER:NUMBER`: switch and port of the source, then of the target.
    Link(Number, Number, Number, Number),
}

impl Asts {
    /// The parts in the order of the vector.
    pub fn new(items: Vec<Ast>) -> Asts
        ensures { result.items ≡ items }
    {
        Asts { items }
    }

    /// The parts in order.
    pub fn as_slice(&self) -> &[Ast]
        ensures { result.now ≡ self.now.items.items }
    {
        self.items.as_slice()
    }
}
