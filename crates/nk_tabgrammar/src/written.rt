//! Tables as they are written, with a line for each name and number; and why a text has none.
//!
//! What is written is a type of the specifications (`spell_text`, `written_of`): programs make no value of it. Of these types
//! they have `ReadError` alone.
ghost use Rattle.std.specs.Prelude.{◌≡◌};
ghost use Rattle.nk_tabgrammar.specs.declared.written.ReadError.TheVariants.{NoMemory};

use nk_field::List;
use nk_lex::{Ident, Number};
use std::alloc::AllocError;
use thiserror::Error;

/// A declaration.
#[derive(Drop)]
pub enum Declaration {
    /// `field NAME NUMBER`: the field's name and its largest value.
    Field(Ident, Number),
    /// `tag NAME`.
    Tag(Ident),
    /// `switch NUMBER ports NUMBER, ..`: the switch, its first port and the others.
    Switch(Number, Number, List<Number>),
    /// `link NUMBER:NUMBER -> NUMBER:NUMBER`: switch and port of the source, then of the target.
    Link(Number, Number, Number, Number),
}

/// `NAME := NUMBER` in a bucket.
#[derive(Drop)]
pub struct Pair {
    /// The field's name.
    pub name: Ident,
    /// The value.
    pub number: Number,
}

/// `NAME = NUMBER` or `NAME = NUMBER / NUMBER` in a row.
#[derive(Drop)]
pub struct WrittenMatch {
    /// The field's name.
    pub name: Ident,
    /// The value.
    pub number: Number,
    /// How many of its first digits count; all of the field's where none is written.
    pub length: Option<Number>,
}

/// Where a bucket sends a packet.
#[derive(Clone, Copy)]
pub enum Way {
    /// `out in`.
    Back,
    /// `out NUMBER`.
    Port(Number),
}

/// `[ .. out .. ]`: the assignments and the exit.
#[derive(Drop)]
pub struct WrittenBucket {
    /// The assignments, in the order of the text.
    pub sets: List<Pair>,
    /// Where the packet is sent.
    pub way: Way,
}

/// What a row does.
#[derive(Drop)]
pub enum WrittenTarget {
    /// A bucket.
    Bucket(WrittenBucket),
    /// `group NUMBER`.
    Group(Number),
    /// `drop`.
    Discard,
}

/// `row NUMBER : .. -> ..`.
#[derive(Drop)]
pub struct WrittenRow {
    /// The priority.
    pub priority: Number,
    /// The matches, in the order of the text.
    pub matches: List<WrittenMatch>,
    /// What the row does.
    pub target: WrittenTarget,
}

/// `group NUMBER = ..`: the number, the first bucket and the others.
#[derive(Drop)]
pub struct WrittenGroup {
    /// The group's number.
    pub number: Number,
    /// The first bucket.
    pub first: WrittenBucket,
    /// The other buckets.
    pub more: List<WrittenBucket>,
}

/// `table NUMBER`, then groups, then rows.
#[derive(Drop)]
pub struct WrittenTable {
    /// The switch.
    pub switch: Number,
    /// The groups.
    pub groups: List<WrittenGroup>,
    /// The rows.
    pub rows: List<WrittenRow>,
}

/// `tables NUMBER`, then declarations, then tables.
#[derive(Drop)]
pub struct WrittenTables {
    /// The number after the word `tables`.
    pub version: Number,
    /// The declarations.
    pub declarations: List<Declaration>,
    /// The tables.
    pub tables: List<WrittenTable>,
}

/// Why a text has no tables: its first fault, or that memory ran out.
#[derive(Clone, Copy, Debug, PartialEq, Eq, Error)]
pub enum ReadError {
    /// Memory ran out.
    #[error("no memory")]
    NoMemory,
    /// A byte that begins no token.
    #[error("line {line}: bad byte")]
    BadByte {
        /// The line of the byte.
        line: u64,
    },
    /// A number above 281,474,976,710,655.
    #[error("line {line}: number too large")]
    NumberTooLarge {
        /// The line of the number.
        line: u64,
    },
    /// No text can continue with this token, or the tokens end where no text can end.
    #[error("line {line}: unexpected")]
    Unexpected {
        /// The line of the token; where the tokens end too early, that of the last one, or 1
        /// without tokens.
        line: u64,
    },
    /// What is written breaks a rule of tables.
    #[error("line {line}: table fault")]
    TableFault {
        /// The line of the first number or name at fault; of the last token where no tag is
        /// declared.
        line: u64,
    },
}

impl From<AllocError> for ReadError {
    ghost from_gives = { λ _ e. e ≡ NoMemory };

    fn from(_: AllocError) -> Self {
        ReadError::NoMemory
    }
}
