//! Declarations, and the faults of a text's tokens.
ghost use Rattle.std.specs.Prelude.{◌≡◌};
ghost use Rattle.nk_grammar.specs.declared.decl.GrammarError.TheVariants.{NoMemory};

use crate::ast::Ast;
use nk_field::List;
use nk_lex::{Ident, Number, Quad};
use std::alloc::AllocError;
use thiserror::Error;

/// A declaration, with the lines of its names and numbers.
#[derive(Drop)]
pub enum Decl {
    /// `field NAME NUMBER`: the field's name and its largest value.
    Field(Ident, Number),
    /// `tag NAME`.
    Tag(Ident),
    /// `switch NUMBER ports NUMBER, ..`: the switch and its ports, at least one.
    Switch(Number, List<Number>),
    /// `link NUMBER:NUMBER -> NUMBER:NUMBER`: switch and port of the source, then of the target.
    Link(Number, Number, Number, Number),
    /// `let NAME = pol`, with the line of the word `let`.
    Let(Ident, Ast, u64),
    /// `fabric NAME = pol`, with the line of the word `fabric`.
    Fabric(Ident, Ast, u64),
    /// `virtual NUMBER:NUMBER -> NUMBER:NUMBER by NAME`: switch and port of the source, then of the target, and the name of the fabric.
    Virtual(Number, Number, Number, Number, Ident),
}

/// A row of a certificate, with the line of the word `row`.
pub struct CertRow {
    /// The numbers before the colon: none in the start row, else at least one.
    pub positions: List<u64>,
    /// The policy that is written after the colon, to be read as a predicate.
    pub pred: Ast,
    /// The line of the word `row`.
    pub line: u64,
}

impl Drop for CertRow {
    fn drop(self) {
        let Self {
            positions: _,
            pred: _,
            line: _,
        } = self;
    }
}

/// The declarations of a text, in order, and the rows of its certificate.
pub struct File {
    /// The declarations.
    pub decls: List<Decl>,
    /// The certificate's rows, the start row first; none where the text has no certificate.
    pub rows: List<CertRow>,
}

impl Drop for File {
    fn drop(self) {
        let Self { decls: _, rows: _ } = self;
    }
}

/// What one more token completes.
#[derive(Drop)]
pub enum Completed {
    /// A declaration.
    Declaration(Decl),
    /// A row of the certificate.
    Row(CertRow),
}

/// The word that the declaration of a policy begins with.
#[derive(Clone, Copy)]
pub enum PolicyKeyword {
    Let,
    Fabric,
}

/// The word that the declaration of a link begins with.
#[derive(Clone, Copy)]
pub enum LinkKeyword {
    Link,
    Virtual,
}

/// Of what a name is wanted.
#[derive(Clone, Copy)]
pub enum Naming {
    Field,
    Tag,
    /// Of a policy, with the line of the word that its declaration begins with.
    Policy(PolicyKeyword, u64),
    /// Of the fabric of a virtual link with these ends.
    Virtual(Number, Number, Number, Number),
}

/// What has been read before the next token of a text.
#[derive(Drop)]
pub enum Stage {
    /// A declaration is wanted, or the end.
    Between,
    /// The name is wanted.
    Name(Naming),
    FieldNamed(Ident),
    Switch,
    SwitchNumbered(Number),
    /// The number of a port is wanted.
    Ports(Number, Vec<Number>),
    /// The number of a port was read.
    PortRead(Number, Vec<Number>),
    Link(LinkKeyword, Quad),
    /// The word `by` is wanted.
    By(Number, Number, Number, Number),
    PolicyNamed(PolicyKeyword, Ident, u64),
    /// The policy itself.
    Policy(PolicyKeyword, Ident, u64),
}

impl Stage {
    /// Another stage takes this one's place.
    pub fn set(&mut self, stage: Stage)
        ensures { self.new ≡ stage }
    {
        *self = stage;
    }
}

/// Why tokens are no text: their first fault, or that memory ran out.
#[derive(Clone, Copy, Debug, PartialEq, Eq, Error)]
pub enum GrammarError {
    /// Memory ran out.
    #[error("no memory")]
    NoMemory,
    /// No text can continue with this token, or the tokens end where no text can end.
    #[error("line {line}: unexpected")]
    Unexpected {
        /// The line of the token; where the tokens end too early, that of the last one, or 1
        /// without tokens.
        line: u64,
    },
    /// More than 256 parentheses and `~` would be open at once.
    #[error("line {line}: too deep")]
    TooDeep {
        /// The line of the token that would open the 257th.
        line: u64,
    },
}

impl From<AllocError> for GrammarError {
    ghost from_gives = { λ _ e. e ≡ NoMemory };

    fn from(_: AllocError) -> Self {
        GrammarError::NoMemory
    }
}
