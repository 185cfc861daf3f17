//! The automaton of two policies together.
ghost use Rattle.std.specs.Prelude.{◌≡◌, ◌+◌, ◌<◌, ◌^◌, ◌++◌, IfOk, OnOk, drop, length};
ghost use Rattle.nk_field.specs.Packet.{FieldTable};
ghost use Rattle.nk_policy.specs.Policy.{marked_from, dups_of};
ghost use Rattle.nk_policy.specs.Tree.{tree_of};
ghost use Rattle.nk_store.specs.StoreState.{IsOver, Grows};
ghost use Rattle.nk_auto.specs.Continued.{IsFit};
ghost use Rattle.nk_cert.specs.Levelled.{IsAutomatonOfBoth};

use nk_apply::union;
use nk_auto::policy_automaton;
use nk_field::List;
use nk_policy::{Pol, dups};
use nk_store::{Id, Store};
use std::alloc::AllocError;

/// The automaton of two policies together.
#[derive(Drop)]
pub struct Both {
    /// The diagram of both starts together, then one for each dup of the left policy, then one for each of the right one's.
    pub states: List<Id>,
    /// The diagram of the left policy's start.
    pub left: Id,
    /// The diagram of the right policy's start.
    pub right: Id,
}

/// The automaton of two policies together, the dups of the left one numbered from 1 on and those of the right one on from
/// there. The only error is that memory ran out.
pub fn automaton_of_both(st: &mut Store, p: &Pol, q: &Pol) -> Result<Both, AllocError>
    requires left { marked_from (tree_of p.now) 1 ≡ tree_of p.now }
    requires right { marked_from (tree_of q.now) (1 + dups_of (tree_of p.now)) ≡ tree_of q.now }
    requires few { 1 + dups_of (tree_of p.now) + dups_of (tree_of q.now) < 2 ^ 32 }
    requires left_fit { IsFit st.old.maxes (tree_of p.now) }
    requires right_fit { IsFit st.old.maxes (tree_of q.now) }
    ensures grows { Grows st.old st.new }
    ensures ok { IfOk result (λ b. (fields : FieldTable) → IsOver fields st.old
        → IsAutomatonOfBoth fields st.new b.states b.left b.right (tree_of p.now) (tree_of q.now)) }
{
    let mut states = policy_automaton(st, p, 1)?;
    let others = policy_automaton(st, q, states.len() as u32)?;
    let left = *states.at(0);
    let right = *others.at(0);
    let start = union(st, left, right)?;
    states.put(0, start);
    push_rest(&mut states, others.as_slice())?;
    st.laws();
    Ok(Both {
        states,
        left,
        right,
    })
}

/// The number after those of a policy's dups, where they are numbered from 1 on: at least 1, and below 2 ^ 32. The label of
/// the first dup of a policy that is numbered on from there.
pub fn number_after(p: &Pol) -> u32
    requires { 1 + dups_of (tree_of p.now) < 2 ^ 32 }
    ensures { result ≡ 1 + dups_of (tree_of p.now) }
{
    1 + dups(p) as u32
}

/// Puts all states but the first after others.
fn push_rest(states: &mut List<Id>, others: &[Id]) -> Result<(), AllocError>
    requires { 0 < length others.now }
    ensures { OnOk result (states.new ≡ states.old ++ drop 1 others.now) }
{
    push_all(states, &others[1..])
}

/// Puts states after others.
fn push_all(states: &mut List<Id>, more: &[Id]) -> Result<(), AllocError>
    ensures { OnOk result (states.new ≡ states.old ++ more.now) }
{
    for state in more {
        states.push(*state)?;
    }
    Ok(())
}
