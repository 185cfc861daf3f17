//! The predicates of a difference.
use nk_policy::Pol;

/// Which packets two policies differ on.
#[derive(Drop)]
pub enum Difference {
    /// None: they give the same histories on every packet in range.
    Same,
    /// The predicate of the packets from which the left policy has a history that the right one hasn't, and the predicate of
    /// those from which the right policy has one that the left one hasn't.
    Differs(Pol, Pol),
}
