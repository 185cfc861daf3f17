//! Sets of packets as predicate diagrams: each packet passes as it is, or is dropped. Also which packets of a diagram have which out.
#![tactic(auto)]

mod at_sets;
mod differences;
mod empty_sets;
mod forgets;
mod groups;
mod images;
mod least_packets;
mod outs;
mod predicate;

ghost use Rattle.nk_sets.specs.Example.{WorkedPredicates};

pub use at_sets::at_packets;
pub use differences::minus;
pub use empty_sets::is_empty;
pub use images::{image, preimage};
pub use least_packets::least;
pub use outs::{OutPackets, packets_by_out};
pub use predicate::set_pol;

/// The predicates of nine small sets, worked out by hand.
pub fn worked_predicates()
    ensures { WorkedPredicates }
{}
