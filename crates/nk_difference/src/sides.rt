//! The difference of two policies.
ghost use Rattle.std.specs.Prelude.{◌≡◌, ◌+◌, ◌<◌, ◌^◌, IfOk, length};
ghost use Rattle.nk_field.specs.Packet.{FieldTable};
ghost use Rattle.nk_policy.specs.Policy.{Policy, marked_from, dups_of};
ghost use Rattle.nk_policy.specs.Tree.{tree_of};
ghost use Rattle.nk_policy.specs.Ranges.{IsInRange, IsOverFields};
ghost use Rattle.nk_names.specs.Complements.{NegatesPredicates};
ghost use Rattle.nk_store.specs.StoreState.{IsId, Grows};
ghost use Rattle.nk_sets.specs.PacketSets.{IsSet};
ghost use Rattle.nk_determ.specs.Pairs.{AreStates};
ghost use Rattle.nk_cert.specs.Levelled.{IsAutomatonOfBoth};
ghost use Rattle.nk_difference.specs.Difference.{IsDifferenceOf};
ghost use Rattle.nk_difference.specs.Sides.{AreStartsOfSides, IsDifferenceIn};

use crate::predicates::Difference;
use nk_apply::identity;
use nk_backward::{CounterexampleStarts, counterexample_starts, explored};
use nk_cert::{Both, number_after, owned_automaton, start_alone};
use nk_determ::Sets;
use nk_field::Fields;
use nk_policy::Pol;
use nk_reach::OneSide;
use nk_sets::{is_empty, set_pol};
use nk_store::{Id, Store};
use std::alloc::{AllocError, Global};

/// Which packets two policies differ on, exactly: the packets in range from which the left policy has a history that the right
/// one hasn't, and the other way round. The left policy's dups are numbered from 1 on in text order, and the right one's go on
/// from there; the answer is that of each policy that is the right one once it is so numbered. Each complement is of a
/// predicate; tests, ranges and assignments are of the fields and their values. Both policies are dropped once their automaton is
/// made. The only error is that memory ran out.
pub fn difference(alloc: Global, fields: &Fields, p: Pol, q: Pol) -> Result<Difference, AllocError>
    requires numbered { marked_from (tree_of p) 1 ≡ tree_of p }
    requires following { marked_from (tree_of q) (1 + dups_of (tree_of p)) ≡ tree_of q }
    requires few { 1 + dups_of (tree_of p) + dups_of (tree_of q) < 2 ^ 32 }
    requires left_complements { NegatesPredicates (tree_of p) }
    requires right_complements { NegatesPredicates (tree_of q) }
    requires left_over { IsOverFields fields.now (tree_of p) }
    requires right_over { IsOverFields fields.now (tree_of q) }
    ensures { IfOk result (λ d. (r : Policy) → marked_from r (1 + dups_of (tree_of p)) ≡ tree_of q
        → IsDifferenceOf fields.now (tree_of p) r d) }
{
    let bound = number_after(&p);
    let mut st = Store::new(alloc, fields)?;
    let both = owned_automaton(&mut st, p, q)?;
    difference_in(&mut st, &both, bound as usize)
}

/// The difference of two policies by their automaton; labels below `bound` are the left one's.
fn difference_in(st: &mut Store, both: &Both, bound: usize) -> Result<Difference, AllocError>
    requires automaton { (fields : FieldTable) × (p : Policy) × (q : Policy)
        × IsAutomatonOfBoth fields st.old both.now.states both.now.left both.now.right p q
        × (bound ≡ 1 + dups_of p) }
    ensures { IfOk result (λ d. (fields : FieldTable) (p q : Policy)
        → IsAutomatonOfBoth fields st.old both.now.states both.now.left both.now.right p q
        → bound ≡ 1 + dups_of p
        → IsInRange p fields → IsInRange q fields → IsDifferenceOf fields p q d) }
{
    let starts = starts_of_sides(st, both.states.as_slice(), both.left, both.right, bound)?;
    difference_of(st, &starts)
}

/// The packets from which either side alone has a history: the whole automaton is explored, and then searched backwards.
fn starts_of_sides(
    st: &mut Store,
    states: &[Id],
    left: Id,
    right: Id,
    bound: usize,
) -> Result<CounterexampleStarts, AllocError>
    requires states { AreStates st.old states.now }
    requires some { 0 < length states.now }
    requires left { IsId st.old left }
    requires right { IsId st.old right }
    ensures grows { Grows st.old st.new }
    ensures ok { IfOk result
        (λ r. AreStartsOfSides st.old states.now left right bound st.new r.left r.right) }
{
    let mut goal = OneSide::new(st, states, left, right, bound)?;
    let from = identity(st)?;
    let mut ss = Sets::new(st.alloc());
    let s = ss.intern(start_alone(st.alloc())?)?;
    let l = explored(st, &mut ss, states, s, from)?;
    st.laws();
    let starts = counterexample_starts(st, &mut ss, states, &l, &mut goal)?;
    Ok(starts)
}

/// The predicates of both sides' packets, unless there are none.
fn difference_of(st: &Store, starts: &CounterexampleStarts) -> Result<Difference, AllocError>
    requires left { IsSet st.now starts.now.left }
    requires right { IsSet st.now starts.now.right }
    ensures { IfOk result (IsDifferenceIn st.now starts.now.left starts.now.right) }
{
    if is_empty(st, starts.left) && is_empty(st, starts.right) {
        return Ok(Difference::Same);
    }
    let left = set_pol(st, starts.left)?;
    let right = set_pol(st, starts.right)?;
    Ok(Difference::Differs(left, right))
}
