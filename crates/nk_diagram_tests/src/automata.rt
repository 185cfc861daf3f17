//! The automata of policies.
ghost use Rattle.std.specs.Prelude.{◌≡◌, ◌≤◌, ◌+◌, ◌^◌, true, IfOk};
ghost use Rattle.nk_policy.specs.Policy.{marked_from, dups_of};
ghost use Rattle.nk_policy.specs.Tree.{tree_of, trees_of};
ghost use Rattle.nk_store.specs.StoreState.{Grows};
ghost use Rattle.nk_auto.specs.Continued.{IsFit, AreFit};
ghost use Rattle.nk_deriv.specs.Part.{NegatesPredicates, AllNegatePredicates};
ghost use Rattle.nk_determ.specs.Pairs.{AreStates};

use crate::policies::numbered;
use nk_auto::policy_automaton;
use nk_field::{Fid, List};
use nk_policy::{Pol, is_predicate};
use nk_store::{Id, Store};
use std::alloc::AllocError;

/// Whether each complement is over a predicate, and each assignment is to a value in range.
#[cycle(fits)]
#[tactic(auto, using(nk_policy::proofs::Trees::tree_of_sum, nk_policy::proofs::Trees::tree_of_seq))]
pub fn fits(st: &Store, p: &Pol) -> bool
    ensures fit { result ≡ true → IsFit st.now.maxes (tree_of p.now) }
    ensures complements { result ≡ true → NegatesPredicates (tree_of p.now) }
{
    match p {
        Pol::Test(_, _) | Pol::Range(_, _, _) | Pol::Dup(_) => true,
        Pol::Set(f, n) => *n <= st.max(*f),
        Pol::Sum(ps) => all_fit(st, ps.as_slice()),
        Pol::Seq(ps) => all_fit(st, ps.as_slice()),
        Pol::Not(q) => is_predicate(q) && fits(st, q),
        Pol::Star(q) => fits(st, q),
        Pol::Link(_, _, a, n, _) => {
            u64::from(*a) <= st.max(Fid::SWITCH) && u64::from(*n) <= st.max(Fid::PORT)
        }
    }
}

/// Whether that holds of each part.
#[cycle(fits)]
fn all_fit(st: &Store, ps: &[Pol]) -> bool
    ensures fit { result ≡ true → AreFit st.now.maxes (trees_of ps.now) }
    ensures complements { result ≡ true → AllNegatePredicates (trees_of ps.now) }
{
    for q in ps {
        if !fits(st, q) {
            return false;
        }
    }
    true
}

/// The automaton of a policy.
#[tactic(auto, using(nk_runs::proofs::Stands::are_states))]
fn drawn(st: &mut Store, p: &Pol) -> Result<List<Id>, AllocError>
    requires fit { IsFit st.old.maxes (tree_of p.now) }
    requires numbered { marked_from (tree_of p.now) 1 ≡ tree_of p.now }
    requires few { 1 + dups_of (tree_of p.now) ≤ 2 ^ 32 }
    ensures grows { Grows st.old st.new }
    ensures states { IfOk result (λ states. AreStates st.new states) }
{
    let states = policy_automaton(st, p, 1)?;
    Ok(states)
}

/// The states of the automaton of a policy, its dups numbered from 1 on; no states where its dups can't be numbered.
#[tactic(auto, using(crate::proofs::NoStates::no_states))]
pub fn states_of(st: &mut Store, raw: &Pol) -> Result<List<Id>, AllocError>
    ensures grows { Grows st.old st.new }
    ensures states { IfOk result (λ states. AreStates st.new states) }
{
    let alloc = st.alloc();
    let Some(p) = numbered(alloc, raw)? else {
        return Ok(List::new(alloc));
    };
    if !fits(st, &p) {
        return Ok(List::new(alloc));
    }
    drawn(st, &p)
}
