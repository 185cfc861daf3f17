//! Why a policy has no physical policy.
ghost use Rattle.std.specs.Prelude.{◌≡◌};
ghost use Rattle.nk_virtual.specs.declared.refusal.VirtualError.TheVariants.{NoMemory};

use nk_field::{History, Packet};
use nk_static::StaticFault;
use std::alloc::AllocError;
use thiserror::Error;

/// The reasons for which a name has no physical policy. The first that holds is told: no policy, or no tag; then what is wrong
/// with a virtual link, of that which begins at the lowest switch and there at the lowest port; then what is seen of the policy;
/// then its size.
#[derive(Debug, Drop, Error)]
pub enum VirtualRefusal {
    /// No policy has the name.
    #[error("no policy")]
    NoPolicy,
    /// No tag is declared.
    #[error("no tag")]
    NoTag,
    /// The text of a virtual link's fabric shows this over the declared links, or that of the policy over the virtual links.
    #[error("{0}")]
    Static(StaticFault),
    /// A fabric has a history, from a packet in range without a tag at the start of its virtual link, that ends elsewhere than
    /// at the packet moved to where the link ends.
    #[error("off target, link {switch}:{port}")]
    OffTarget {
        /// The switch where the virtual link begins.
        switch: u16,
        /// The port where it begins.
        port: u16,
        /// The least packet that has such a history.
        start: Packet,
        /// The least such history from there.
        history: History,
    },
    /// A fabric has no history from such a packet.
    #[error("not carried, link {switch}:{port}")]
    NotCarried {
        /// The switch where the virtual link begins.
        switch: u16,
        /// The port where it begins.
        port: u16,
        /// The least such packet.
        start: Packet,
    },
    /// The physical policy has more than 1,048,576 elements.
    #[error("expanded too large")]
    TooLarge,
}

/// Why no physical policy was made.
#[derive(Debug, Drop, Error)]
pub enum VirtualError {
    /// Memory ran out.
    #[error("no memory")]
    NoMemory,
    /// The name is refused.
    #[error("refused")]
    Refused(VirtualRefusal),
}

impl From<AllocError> for VirtualError {
    ghost from_gives = { λ _ e. e ≡ NoMemory };

    fn from(_: AllocError) -> Self {
        VirtualError::NoMemory
    }
}
