//! The automaton of a policy, made in two ways.
ghost use Rattle.std.specs.Prelude.{◌≡◌, ◌≤◌, ◌+◌, ◌^◌};
ghost use Rattle.nk_policy.specs.Policy.{marked_from, dups_of};
ghost use Rattle.nk_policy.specs.Tree.{tree_of};
ghost use Rattle.nk_apply.specs.Unions.{AreIds};
ghost use Rattle.nk_store.specs.StoreState.{IsId};
ghost use Rattle.nk_auto.specs.Continued.{IsFit};
ghost use Rattle.nk_deriv.specs.Part.{NegatesPredicates};

use crate::automata::{fits, states_of};
use crate::cases::DST;
use crate::policies::{in_turn, numbered};
use nk_auto::automaton;
use nk_deriv::derivatives::parts;
use nk_field::{Fid, Packet};
use nk_policy::Pol;
use nk_store::{Id, Store};
use std::alloc::{AllocError, Global};

/// `dup;dst:=1`.
fn recorded_and_set(alloc: Global) -> Result<Pol, AllocError> {
    in_turn(alloc, Pol::Dup(1), Pol::Set(Fid::new(DST), 1))
}

/// Whether a state leads the packet of zeros to one target alone, with this `dst`.
fn leads(st: &Store, d: Id, target: u64, value: u64) -> bool
    requires { IsId st.now d }
{
    let zero = Packet::zero();
    let outs = st.look(d, &zero);
    outs.len() == 1
        && outs[0].target == target
        && outs[0].act.apply(&zero).get(Fid::new(DST)) == value
}

/// Whether there are two states: the start records the packet, and after the dup it ends with `dst` 1.
fn are_two(st: &Store, states: &[Id]) -> bool
    requires { AreIds st.now states.now }
{
    states.len() == 2 && leads(st, states[0], 1, 0) && leads(st, states[1], 0, 1)
}

/// Whether the automaton by the policy is so.
pub fn is_by_policy(st: &mut Store) -> Result<bool, AllocError> {
    let p = recorded_and_set(st.alloc())?;
    let states = states_of(st, &p)?;
    Ok(are_two(st, states.as_slice()))
}

/// Whether the automaton by the parts of a policy is so.
fn are_by_parts(st: &mut Store, p: &Pol) -> Result<bool, AllocError>
    requires fit { IsFit st.old.maxes (tree_of p.now) }
    requires complements { NegatesPredicates (tree_of p.now) }
    requires numbered { marked_from (tree_of p.now) 1 ≡ tree_of p.now }
    requires few { 1 + dups_of (tree_of p.now) ≤ 2 ^ 32 }
{
    let states = automaton(st, &parts(st.alloc(), p)?)?;
    Ok(are_two(st, states.as_slice()))
}

/// Whether the automaton by the policy's parts is so.
pub fn is_by_parts(st: &mut Store) -> Result<bool, AllocError> {
    let raw = recorded_and_set(st.alloc())?;
    let Some(p) = numbered(st.alloc(), &raw)? else {
        return Ok(false);
    };
    if !fits(st, &p) {
        return Ok(false);
    }
    are_by_parts(st, &p)
}
