//! Why a certificate isn't checked.
ghost use Rattle.std.specs.Prelude.{◌≡◌};
ghost use Rattle.nk_check.specs.declared.error.CheckError.TheVariants.{NoMemory};

use std::alloc::AllocError;
use thiserror::Error;

/// Why a certificate isn't checked.
#[derive(Clone, Copy, PartialEq, Eq, Debug, Error)]
pub enum CheckError {
    /// Memory ran out.
    #[error("no memory")]
    NoMemory,
    /// One of the names is no policy's.
    #[error("no policy")]
    NoPolicy,
}

impl From<AllocError> for CheckError {
    ghost from_gives = { λ _ e. e ≡ NoMemory };

    fn from(_: AllocError) -> Self {
        CheckError::NoMemory
    }
}
