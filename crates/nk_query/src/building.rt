//! The questions of queries about policies.
ghost use Rattle.std.specs.Prelude.{◌≡◌, ◌-◌, ◌^◌, IfOk};
ghost use Rattle.nk_policy.specs.Policy.{marked_from, MarksBelow};
ghost use Rattle.nk_policy.specs.Tree.{tree_of};
ghost use Rattle.nk_query.specs.Asked.{apart_of, waypoint_of};
ghost use Rattle.nk_query.specs.Answers.{MakesQuestion};
ghost use Rattle.nk_query.specs.Questions.{apart_question, waypoint_question};

use crate::avoided::{avoided, complement};
use crate::error::QueryError;
use crate::measure::{apart_size, waypoint_size};
use nk_policy::{Pol, Pols, is_predicate};
use std::alloc::{AllocError, Global};

const MOST: u64 = 1_048_576;

/// The policy whose histories are those of `p` that start where `from` holds and end where `target` does. Its parts are moved into
/// it: predicates have no dups, so those of `p` keep their numbers. To copy the parts and to number them anew was a seventh of all
/// work of `apart` on a policy of 70,000 elements.
pub(crate) fn apart(alloc: Global, p: Pol, from: Pol, target: Pol) -> Result<Pol, QueryError>
    requires { marked_from (tree_of p) 1 ≡ tree_of p }
    ensures { MakesQuestion (apart_of (tree_of p) (tree_of from) (tree_of target)) result }
{
    if !is_predicate(&from) || !is_predicate(&target) {
        return Err(QueryError::NotAPredicate);
    }
    if apart_size(&p, &from, &target) > MOST {
        return Err(QueryError::TooLarge);
    }
    let q = framed(alloc, p, from, target)?;
    Ok(q)
}

/// The policy whose histories are those of `p` that start where `from` holds, end where `target` does, and have no packet
/// at which `middle` holds. Its parts are moved into it too: a guard has no dups.
pub(crate) fn waypoint(
    alloc: Global,
    p: Pol,
    from: Pol,
    middle: &Pol,
    target: Pol,
) -> Result<Pol, QueryError>
    requires numbered { marked_from (tree_of p) 1 ≡ tree_of p }
    requires marks { MarksBelow (tree_of p) (2 ^ 32 - 1) }
    ensures { MakesQuestion (waypoint_of (tree_of p) (tree_of from) (tree_of middle.now)
        (tree_of target)) result }
{
    if !is_predicate(&from) || !is_predicate(middle) || !is_predicate(&target) {
        return Err(QueryError::NotAPredicate);
    }
    if waypoint_size(&p, &from, middle, &target) > MOST {
        return Err(QueryError::TooLarge);
    }
    let q = guarded(alloc, p, from, middle, target)?;
    Ok(q)
}

/// The question of `apart`.
#[tactic(auto, using(nk_policy::proofs::Trees::tree_of_seq))]
fn framed(alloc: Global, p: Pol, from: Pol, target: Pol) -> Result<Pol, AllocError>
    ensures { IfOk result (λ q. tree_of q
        ≡ apart_question (tree_of p) (tree_of from) (tree_of target)) }
{
    let parts = vec![in alloc; from, p, target]?;
    Ok(Pol::Seq(Pols::new(parts)))
}

/// The question of `waypoint`.
#[tactic(auto, using(nk_policy::proofs::Trees::tree_of_seq))]
fn guarded(alloc: Global, p: Pol, from: Pol, middle: &Pol, target: Pol) -> Result<Pol, AllocError>
    requires marks { MarksBelow (tree_of p) (2 ^ 32 - 1) }
    ensures { IfOk result (λ q. tree_of q
        ≡ waypoint_question (tree_of p) (tree_of from) (tree_of middle.now) (tree_of target)) }
{
    let before = complement(alloc, middle)?;
    let body = avoided(alloc, p, middle)?;
    let after = complement(alloc, middle)?;
    let parts = vec![in alloc; from, before, body, after, target]?;
    Ok(Pol::Seq(Pols::new(parts)))
}
