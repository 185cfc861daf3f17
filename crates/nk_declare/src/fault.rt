//! Why a declaration is refused.
ghost use Rattle.std.specs.Prelude.{◌≡◌};
ghost use Rattle.nk_declare.specs.declared.fault.DeclareError.TheVariants.{NoMemory};

use std::alloc::{AllocError, AllocFailed};
use thiserror::Error;

/// What is wrong with a declaration.
#[derive(Clone, Copy, Debug, PartialEq, Eq, Error)]
#[error("{}", self.message())]
pub enum DeclareFault {
    /// A field has the name already; the switch is `sw` and the port `pt`.
    FieldTwice,
    /// Sixteen fields are declared already.
    TooManyFields,
    /// A tag is declared already.
    TagTwice,
    /// The tag is no field declared above.
    TagUnknown,
    /// The switch is declared already.
    SwitchTwice,
    /// The port stands before in the same declaration.
    PortTwice,
    /// An end of a link is no declared port.
    NoSuchPort,
    /// A link begins at the port already.
    SourceTwice,
    /// A link leads to the port already.
    TargetTwice,
    /// A switch or a port is above 65,535.
    ValueOutOfRange,
}

/// The first fault of a declaration, or that memory ran out.
#[derive(Clone, Copy, Debug, PartialEq, Eq, Error)]
pub enum DeclareError {
    /// Memory ran out.
    #[error("no memory")]
    NoMemory,
    /// The declaration's first fault.
    #[error("line {line}: {kind}")]
    Fault {
        /// What is wrong.
        kind: DeclareFault,
        /// The line of the name or number that is at fault, from 1 on.
        line: u64,
    },
}

impl From<AllocError> for DeclareError {
    ghost from_gives = { λ _ e. e ≡ NoMemory };

    fn from(_: AllocError) -> Self {
        DeclareError::NoMemory
    }
}

impl From<AllocFailed<u16>> for DeclareError {
    ghost from_gives = { λ _ e. e ≡ NoMemory };

    fn from(_: AllocFailed<u16>) -> Self {
        DeclareError::NoMemory
    }
}
