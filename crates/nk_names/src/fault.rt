//! Why a text makes no program.
ghost use Rattle.std.specs.Prelude.{◌≡◌};
ghost use Rattle.nk_names.specs.declared.fault.NamesError.TheVariants.{NoMemory};

use nk_declare::DeclareFault;
use std::alloc::AllocError;
use thiserror::Error;

/// What is wrong with a text.
#[derive(Clone, Copy, Debug, PartialEq, Eq, Error)]
#[error("{}", self.message())]
pub enum FaultKind {
    /// A declaration or a number has a fault that texts of tables may have too.
    Common(DeclareFault),
    /// A policy has the name already.
    LetTwice,
    /// No policy above has the name.
    UnknownName,
    /// No field above has the name.
    UnknownField,
    /// A `~` stands over what is no predicate.
    NotAPredicate,
    /// A policy is more than 256 deep when its names are written out.
    TooDeep,
    /// A policy has more than 1,048,576 elements when its names are written out.
    TooLarge,
}

/// Why the declarations of a text make no program: their first fault, or that memory ran out.
#[derive(Clone, Copy, Debug, PartialEq, Eq, Error)]
pub enum NamesError {
    /// Memory ran out.
    #[error("no memory")]
    NoMemory,
    /// The first fault of the text.
    #[error("line {line}: {kind}")]
    Fault {
        /// What is wrong.
        kind: FaultKind,
        /// The line of the name, number, `~` or `let` that is at fault, from 1 on.
        line: u64,
    },
}

impl From<AllocError> for NamesError {
    ghost from_gives = { λ _ e. e ≡ NoMemory };

    fn from(_: AllocError) -> Self {
        NamesError::NoMemory
    }
}
