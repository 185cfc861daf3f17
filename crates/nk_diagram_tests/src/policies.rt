//! Policies of one or two parts, and policies with their dups numbered.
ghost use Rattle.std.specs.Prelude.{◌≡◌, ◌≤◌, ◌+◌, ◌^◌, IfOk, IfSome};
ghost use Rattle.nk_policy.specs.Policy.{marked_from, dups_of};
ghost use Rattle.nk_policy.specs.Tree.{tree_of};

use nk_policy::{Pol, Pols, dups, marked};
use std::alloc::{AllocError, Global};

/// Two policies beside each other.
pub fn either(alloc: Global, p: Pol, q: Pol) -> Result<Pol, AllocError> {
    Ok(Pol::Sum(Pols::new(vec![in alloc; p, q]?)))
}

/// A policy after another.
pub fn in_turn(alloc: Global, p: Pol, q: Pol) -> Result<Pol, AllocError> {
    Ok(Pol::Seq(Pols::new(vec![in alloc; p, q]?)))
}

/// Any number of rounds of a policy.
pub fn star(alloc: Global, p: Pol) -> Result<Pol, AllocError> {
    Ok(Pol::Star(Box::new(alloc, p)?))
}

/// What a predicate drops.
pub fn complement(alloc: Global, p: Pol) -> Result<Pol, AllocError> {
    Ok(Pol::Not(Box::new(alloc, p)?))
}

/// The most dups of a policy that is numbered.
const MOST_DUPS: u64 = 1_000_000;

/// The policy with its dups numbered in text order, from 1 on; nothing where it has more than a million.
#[tactic(auto, using(nk_policy::proofs::Remade::marked_again, nk_policy::proofs::Remade::marked_dups))]
pub fn numbered(alloc: Global, raw: &Pol) -> Result<Option<Pol>, AllocError>
    ensures numbered { IfOk result (λ o. IfSome o (λ p. marked_from (tree_of p) 1 ≡ tree_of p)) }
    ensures few { IfOk result (λ o. IfSome o (λ p. 1 + dups_of (tree_of p) ≤ 2 ^ 32)) }
{
    if dups(raw) > MOST_DUPS {
        return Ok(None);
    }
    let p = marked(alloc, raw, 1)?;
    Ok(Some(p))
}
