//! The automaton of a policy.
ghost use Rattle.std.specs.Prelude.{◌≡◌, ◌+◌, ◌≤◌, ◌^◌, IfOk, length};
ghost use Rattle.nk_policy.specs.Policy.{marked_from, dups_of};
ghost use Rattle.nk_policy.specs.Tree.{tree_of};
ghost use Rattle.nk_store.specs.StoreState.{Grows};
ghost use Rattle.nk_auto.specs.Continued.{IsFit};
ghost use Rattle.nk_auto.specs.Automaton.{IsAutomaton};

use crate::with_states::continued_with_states;
use nk_algebra::identity;
use nk_field::List;
use nk_policy::{Pol, dups};
use nk_store::{Id, Store};
use std::alloc::{AllocError, Global};

/// The automaton of a policy whose dups are numbered from `first` on in text order: the start's diagram, then one for
/// each dup, ascending. A diagram sends to target 0 the packets at which the policy ends without a record, and to
/// target l those that it records next, at its dup l. The only error is that memory ran out.
pub fn policy_automaton(st: &mut Store, p: &Pol, first: u32) -> Result<List<Id>, AllocError>
    requires from { 1 ≤ first }
    requires numbered { marked_from (tree_of p.now) first ≡ tree_of p.now }
    requires few { first + dups_of (tree_of p.now) ≤ 2 ^ 32 }
    ensures grows { Grows st.old st.new }
    ensures ok { IfOk result
        (λ states. IsFit st.old.maxes (tree_of p.now)
        → IsAutomaton st.new states first (tree_of p.now)) }
{
    let count = dups(p) as usize;
    let end = identity(st)?;
    let mut states = repeated(st.alloc(), end, count + 1)?;
    let start = continued_with_states(st, p, end, first - 1, &mut states)?;
    states.put(0, start);
    Ok(states)
}

/// A list of so many times the diagram.
fn repeated(alloc: Global, d: Id, count: usize) -> Result<List<Id>, AllocError>
    ensures { IfOk result (λ states. length states ≡ count) }
{
    let mut states = List::new(alloc);
    for i in 0..count {
        states.push(d)?;
    }
    Ok(states)
}
