//! Backward reachability over set states: the packets that start a history which ends at a violation, all of them. A least
//! fixed point of preimages over the transitions between all set states and packets that are visited.
#![tactic(auto)]

mod closure;
mod entries;
mod exploring;
mod postorder;
mod predecessors;
mod starts;
mod sweeps;
mod transitions;
mod violations;

pub use exploring::explored;
pub use starts::{CounterexampleStarts, counterexample_starts};
