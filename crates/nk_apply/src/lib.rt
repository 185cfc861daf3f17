//! Diagrams of one store changed and put together node by node and leaf by leaf, as Bryant's Apply does. Each operation adds what
//! nodes it needs and changes none, also where it fails; its only error is that memory ran out.
#![tactic(auto)]

mod ascending;
mod constants;
mod few;
mod leaves;
mod many;
mod maps;
mod memo;
mod pairs;
mod part;
mod restricts;
mod spans;
mod sums;
mod unions;
mod walks;

pub use constants::{empty, identity};
pub use leaves::{both, both_later, negate, union, union_later};
pub use maps::{LeafMap, map_leaves};
pub use memo::Memo;
pub use pairs::{Join, first_field, merge};
pub use part::{found_near, part_at, part_count, part_near, tested};
pub use restricts::{restrict, shift};
pub use spans::{range, span, test};
pub use unions::union_all;
pub use walks::{NodeMap, known, map_nodes};
