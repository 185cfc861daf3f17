//! Why comparing gives no answer.
ghost use Rattle.std.specs.Prelude.{◌≡◌};
ghost use Rattle.nk_bisim.specs.declared.answer.CompareError.TheVariants.{NoMemory};

use std::alloc::AllocError;
use thiserror::Error;

/// Why two policies aren't compared.
#[derive(Clone, Copy, PartialEq, Eq, Debug, Error)]
pub enum CompareError {
    /// Memory ran out.
    #[error("no memory")]
    NoMemory,
    /// One of the names is no policy's.
    #[error("no policy")]
    NoPolicy,
}

impl From<AllocError> for CompareError {
    ghost from_gives = { λ _ e. e ≡ NoMemory };

    fn from(_: AllocError) -> Self {
        CompareError::NoMemory
    }
}
