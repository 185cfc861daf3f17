//! Why sets have no numbers.
ghost use Rattle.std.specs.Prelude.{◌≡◌};
ghost use Rattle.nk_tag.specs.declared.error.NumberError.TheVariants.{NoMemory};

use std::alloc::AllocError;
use thiserror::Error;

/// Why no numbers were given.
#[derive(Clone, Copy, PartialEq, Eq, Debug, Error)]
pub enum NumberError {
    /// Memory ran out.
    #[error("no memory")]
    NoMemory,
    /// There are more sets at odd levels than are allowed.
    #[error("too many tags, found {found}")]
    TooManyTags {
        /// One more than are allowed, however many sets there are.
        found: u64,
    },
}

impl From<AllocError> for NumberError {
    ghost from_gives = { λ _ e. e ≡ NoMemory };

    fn from(_: AllocError) -> Self {
        NumberError::NoMemory
    }
}
