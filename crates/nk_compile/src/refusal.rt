//! Why a policy isn't compiled.
ghost use Rattle.std.specs.Prelude.{◌≡◌};
ghost use Rattle.nk_compile.specs.declared.refusal.CompileError.TheVariants.{NoMemory};

use nk_field::{History, Packet};
use nk_static::StaticFault;
use std::alloc::AllocError;
use thiserror::Error;

/// The reasons for which no tables are made. The first that holds, in this order, is answered.
#[derive(Debug, Drop, Error)]
pub enum Refusal {
    /// No policy has the name.
    #[error("no policy")]
    NoPolicy,
    /// No tag is declared.
    #[error("no tag")]
    NoTag,
    /// The policy's text shows this over the declared links.
    #[error("{0}")]
    Static(StaticFault),
    /// A located untagged packet has a history that ends off an edge port.
    #[error("off edge")]
    OffEdge {
        /// The packet that the least such history starts at: fewer records come first, then the lesser start, then the records in
        /// turn, then the last packet.
        start: Packet,
        /// That history.
        history: History,
    },
    /// There are more tag sets than the tag has values above 0.
    #[error("too many tags, found {found}")]
    TooManyTags {
        /// One more than the tag's largest value, however many tag sets there are.
        found: u64,
    },
}

/// Why no tables were made.
#[derive(Debug, Drop, Error)]
pub enum CompileError {
    /// Memory ran out.
    #[error("no memory")]
    NoMemory,
    /// The policy is refused.
    #[error("refused")]
    Refused(Refusal),
}

impl From<AllocError> for CompileError {
    ghost from_gives = { λ _ e. e ≡ NoMemory };

    fn from(_: AllocError) -> Self {
        CompileError::NoMemory
    }
}
