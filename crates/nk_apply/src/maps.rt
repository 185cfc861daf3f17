//! One diagram changed leaf by leaf.
ghost use Rattle.std.specs.Prelude.{ℕ, ◌≤◌, IfOk, List as Items};
ghost use Rattle.nk_store.specs.declared.node.Out.{Out};
ghost use Rattle.nk_store.specs.Leaves.{Every, Suits, AreOrdered};
ghost use Rattle.nk_store.specs.StoreState.{IsId, look, root_field, Grows, HasLeaves};

use crate::walks::{NodeMap, map_nodes};
use nk_field::{List, PLACES};
use nk_store::{Id, Node, Out, Store};
use std::alloc::{AllocError, Global};

/// A change of leaves: what is made of each leaf of a diagram.
pub trait LeafMap {
    ghost mapped: { Self → Items Out → Items Out };

    ghost allowed: { Self → Items ℕ → Type 0 };

    /// What is made of the outs of a leaf, in any order and number.
    fn map(&self, alloc: Global, outs: &[Out]) -> Result<List<Out>, AllocError>
        ensures is { IfOk result (λ r. AreOrdered r (mapped self.now outs.now)) }
        ensures suits { IfOk result
            (λ r. (maxes : Items ℕ) → allowed self.now maxes → Every (Suits maxes) outs.now
            → Every (Suits maxes) r) };
}

/// A diagram changed leaf by leaf keeps all fields.
#[derive(Drop)]
struct ByLeaf<'a, M> {
    leaves: &'a M,
}

impl<'a, M: LeafMap> NodeMap for ByLeaf<'a, M> {
    ghost taken = { λ _ pk. pk };

    ghost made = { λ s _ _ os. M.mapped s.leaves.now os };

    ghost kept = { λ _. 18 };

    ghost first = { λ _ t. t };

    ghost allowed = { λ s maxes. M.allowed s.leaves.now maxes };

    fn place(&self) -> usize {
        PLACES
    }

    fn is_quick(&self) -> bool {
        false
    }

    fn laws(&self) {}

    fn change(&self, st: &mut Store, d: Id) -> Result<Id, AllocError> {
        map_leaf(st, self.leaves, d)
    }
}

/// The diagram whose leaf at each packet is what is made of the leaf there. Each node is visited once.
pub fn map_leaves<M: LeafMap>(st: &mut Store, m: &M, d: Id) -> Result<Id, AllocError>
    requires id { IsId st.old d }
    requires allowed { M.allowed m.now st.old.maxes }
    ensures grows { Grows st.old st.new }
    ensures ok { IfOk result (λ r. HasLeaves st.new r (λ pk. M.mapped m.now (look st.old d pk))) }
    ensures later { IfOk result (λ r. root_field st.old d ≤ root_field st.new r) }
{
    map_nodes(st, &ByLeaf { leaves: m }, d)
}

/// The changed diagram of a leaf.
fn map_leaf<M: LeafMap>(st: &mut Store, m: &M, d: Id) -> Result<Id, AllocError>
    requires id { IsId st.old d }
    requires allowed { M.allowed m.now st.old.maxes }
    requires leaf { 18 ≤ root_field st.old d }
    ensures grows { Grows st.old st.new }
    ensures ok { IfOk result (λ r. HasLeaves st.new r (λ pk. M.mapped m.now (look st.old d pk))) }
    ensures later { IfOk result (λ r. root_field st.old d ≤ root_field st.new r) }
{
    let outs = match st.view(d) {
        Node::Leaf(outs) => m.map(st.alloc(), outs.as_slice())?,
        Node::Case(_, _) => unreachable!(),
    };
    st.leaf(outs)
}
