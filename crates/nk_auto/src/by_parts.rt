//! The automaton of a policy, by the parts of what is left of it after each of its dups.
ghost use Rattle.std.specs.Prelude.{◌≡◌, ℕ, ◌++◌, List as Items, IfOk, OnOk};
ghost use Rattle.nk_policy.specs.Policy.{Policy};
ghost use Rattle.nk_policy.specs.Tree.{tree_of};
ghost use Rattle.nk_store.specs.StoreState.{Grows};
ghost use Rattle.nk_apply.specs.Unions.{AreIds};
ghost use Rattle.nk_auto.specs.Automaton.{IsAutomaton};
ghost use Rattle.nk_auto.specs.OfParts.{IsAimed, IsOfPart, AreOfParts, ArePolicyParts, IsDrawable};

use crate::silence::silent;
use nk_algebra::{aim, union};
use nk_deriv::{Part, Parts};
use nk_field::List;
use nk_policy::Pol;
use nk_store::{Id, Store};
use std::alloc::AllocError;

/// The automaton of a policy from its parts: the diagram of the first part, then that of the part after each dup, in
/// text order. It is the automaton of every policy that has these parts and whose dups are numbered in text order. This
/// is the plain way: each part is drawn alone, so what several dups have after them is drawn several times. The only
/// error is that memory ran out.
pub fn automaton(st: &mut Store, parts: &Parts) -> Result<List<Id>, AllocError>
    ensures grows { Grows st.old st.new }
    ensures ok { IfOk result
        (λ states. (p : Policy) (first : ℕ) → ArePolicyParts parts.now p → IsDrawable st.old p first
        →
        IsAutomaton st.new states first p) }
    ensures ids { IfOk result (λ states. AreIds st.new states) }
{
    let mut states = List::new(st.alloc());
    let start = state_of_part(st, &parts.first)?;
    states.push(start)?;
    push_states(st, parts.after.as_slice(), &mut states)?;
    Ok(states)
}

/// Puts the diagrams of the parts at the end.
fn push_states(
    st: &mut Store,
    entries: &[(u32, Part)],
    states: &mut List<Id>,
) -> Result<(), AllocError>
    ensures grows { Grows st.old st.new }
    ensures pushed { OnOk result
        ((made : Items ℕ) × (states.new ≡ states.old ++ made)
        × AreOfParts st.new made entries.now) }
{
    for entry in entries {
        let d = state_of_part(st, &entry.1)?;
        states.push(d)?;
    }
    Ok(())
}

/// The diagram of a part: its free policy, and each leg to the leg's label.
fn state_of_part(st: &mut Store, part: &Part) -> Result<Id, AllocError>
    ensures grows { Grows st.old st.new }
    ensures ok { IfOk result (λ d. IsOfPart st.new d (tree_of part.now.free) part.now.legs) }
{
    let free = silent(st, &part.free)?;
    with_legs(st, free, &part.free, part.legs.as_slice())
}

/// The diagram of a free policy, with those of the legs.
fn with_legs(st: &mut Store, drawn: Id, free: &Pol, legs: &[(Pol, u32)]) -> Result<Id, AllocError>
    requires { IsAimed st.old drawn (tree_of free.now) 0 }
    ensures grows { Grows st.old st.new }
    ensures ok { IfOk result (λ d. IsOfPart st.new d (tree_of free.now) legs.now) }
{
    let mut d = drawn;
    let mut i = legs.len();
    while i > 0 {
        i -= 1;
        let leg = &legs[i];
        let records = aimed_at(st, &leg.0, u64::from(leg.1))?;
        d = union(st, records, d)?;
    }
    Ok(d)
}

/// The diagram of a policy's runs without a record, all to one target.
fn aimed_at(st: &mut Store, p: &Pol, target: u64) -> Result<Id, AllocError>
    ensures grows { Grows st.old st.new }
    ensures ok { IfOk result (λ d. IsAimed st.new d (tree_of p.now) target) }
{
    let d = silent(st, p)?;
    aim(st, d, target)
}
