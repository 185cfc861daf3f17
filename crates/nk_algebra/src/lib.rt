//! Diagrams of one store in sequence, choices between diagrams, targets and assignments; the operations of nk_apply are
//! offered here too.
//! Each operation adds what nodes it needs and changes none, also where it fails; its only error is that memory ran out.
#![tactic(auto)]

mod again;
mod aims;
mod choices;
mod halves;
mod leaf_seqs;
mod partition;
mod seqs;

pub use again::second_calls;
pub use aims::{aim, assign};
pub use choices::choose;
pub use nk_apply::{
    Join, LeafMap, Memo, NodeMap, both, empty, first_field, identity, known, map_leaves, map_nodes,
    merge, negate, part_at, part_near, range, restrict, shift, span, test, tested, union,
    union_all,
};
pub use seqs::{after, out_count, put_after, seq};
