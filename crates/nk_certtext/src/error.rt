//! Why the rows of a text make no certificate, and why the tokens of a text make no program with a certificate.
ghost use Rattle.std.specs.Prelude.{◌≡◌};
ghost use Rattle.nk_certtext.specs.Rows.{fault_of_predicate};
ghost use Rattle.nk_certtext.specs.Whole.{grammar_fault, names_fault, rows_fault};
ghost use Rattle.nk_certtext.specs.declared.error.CertError.TheVariants.{NoMemory};
ghost use Rattle.nk_certtext.specs.declared.error.TextError.TheVariants as text;

use nk_grammar::GrammarError;
use nk_names::{FaultKind, NamesError};
use std::alloc::AllocError;
use thiserror::Error;

/// The first fault of a certificate's rows, or that memory ran out.
#[derive(Clone, Copy, Debug, PartialEq, Eq, Error)]
pub enum CertError {
    /// Memory ran out.
    #[error("no memory")]
    NoMemory,
    /// A row's positions don't ascend, or an earlier row has them.
    #[error("line {line}: certificate fault")]
    CertFault {
        /// The line of the row's word `row`, from 1 on.
        line: u64,
    },
    /// A row has no predicate over the program's fields.
    #[error("line {line}: {kind}")]
    Fault {
        /// What is wrong.
        kind: FaultKind,
        /// The line of the name or number that is at fault, or of the row's word `row`, from 1 on.
        line: u64,
    },
}

impl From<AllocError> for CertError {
    ghost from_gives = { λ _ e. e ≡ NoMemory };

    fn from(_: AllocError) -> Self {
        CertError::NoMemory
    }
}

impl From<NamesError> for CertError {
    ghost from_gives = { λ error e. e ≡ fault_of_predicate error };

    fn from(error: NamesError) -> Self {
        match error {
            NamesError::NoMemory => CertError::NoMemory,
            NamesError::Fault { kind, line } => CertError::Fault { kind, line },
        }
    }
}

/// The first fault of a text with a certificate, or that memory ran out: that of the grammar, else that of the declarations, else that
/// of the rows.
#[derive(Clone, Copy, Debug, PartialEq, Eq, Error)]
pub enum TextError {
    /// Memory ran out.
    #[error("no memory")]
    NoMemory,
    /// No text can continue with this token, or the tokens end where no text can end.
    #[error("line {line}: unexpected")]
    Unexpected {
        /// The line of the token; where the tokens end too early, that of the last one, or 1 without tokens.
        line: u64,
    },
    /// More than 256 parentheses and `~` would be open at once.
    #[error("line {line}: too deep")]
    TooDeep {
        /// The line of the token that would open the 257th.
        line: u64,
    },
    /// The declarations make no program, or a row has no predicate over the program's fields.
    #[error("line {line}: {kind}")]
    Fault {
        /// What is wrong.
        kind: FaultKind,
        /// The line of what is at fault, from 1 on.
        line: u64,
    },
    /// A row's positions don't ascend, or an earlier row has them.
    #[error("line {line}: certificate fault")]
    CertFault {
        /// The line of the row's word `row`, from 1 on.
        line: u64,
    },
}

impl From<AllocError> for TextError {
    ghost from_gives = { λ _ e. e ≡ text.NoMemory };

    fn from(_: AllocError) -> Self {
        TextError::NoMemory
    }
}

impl From<GrammarError> for TextError {
    ghost from_gives = { λ error e. e ≡ grammar_fault error };

    fn from(error: GrammarError) -> Self {
        match error {
            GrammarError::NoMemory => TextError::NoMemory,
            GrammarError::Unexpected { line } => TextError::Unexpected { line },
            GrammarError::TooDeep { line } => TextError::TooDeep { line },
        }
    }
}

impl From<NamesError> for TextError {
    ghost from_gives = { λ error e. e ≡ names_fault error };

    fn from(error: NamesError) -> Self {
        match error {
            NamesError::NoMemory => TextError::NoMemory,
            NamesError::Fault { kind, line } => TextError::Fault { kind, line },
        }
    }
}

impl From<CertError> for TextError {
    ghost from_gives = { λ error e. e ≡ rows_fault error };

    fn from(error: CertError) -> Self {
        match error {
            CertError::NoMemory => TextError::NoMemory,
            CertError::CertFault { line } => TextError::CertFault { line },
            CertError::Fault { kind, line } => TextError::Fault { kind, line },
        }
    }
}
