//! Why a query isn't answered.
ghost use Rattle.std.specs.Prelude.{◌≡◌};
ghost use Rattle.nk_query.specs.declared.error.QueryError.TheVariants.{NoMemory};

use std::alloc::AllocError;
use thiserror::Error;

/// Why a query isn't answered. Of the last three the first that applies is told.
#[derive(Clone, Copy, PartialEq, Eq, Debug, Error)]
pub enum QueryError {
    /// Memory ran out.
    #[error("no memory")]
    NoMemory,
    /// One of the names is no policy's.
    #[error("no policy")]
    NoPolicy,
    /// A policy that has to be a predicate isn't one.
    #[error("not a predicate")]
    NotAPredicate,
    /// The question has more than 1,048,576 elements.
    #[error("expanded too large")]
    TooLarge,
}

impl From<AllocError> for QueryError {
    ghost from_gives = { λ _ e. e ≡ NoMemory };

    fn from(_: AllocError) -> Self {
        QueryError::NoMemory
    }
}
