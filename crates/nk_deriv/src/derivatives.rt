//! The parts of a policy.
ghost use Rattle.std.specs.Prelude.{◌≡◌, ℕ, ◌+◌, ◌≤◌, ◌^◌, map, All, IfOk};
ghost use Rattle.nk_policy.specs.Policy.{dups_of, marked_from, numbers_of};
ghost use Rattle.nk_policy.specs.Tree.{tree_of};
ghost use Rattle.nk_policy.specs.After.{after};
ghost use Rattle.nk_deriv.specs.Part.{NegatesPredicates, IsWithin, IsPartOfDerivative};

use crate::first::part_of;
use crate::rest::rests;
use crate::turns::keeping;
use crate::values::{Part, Parts};
use nk_field::List;
use nk_policy::Pol;
use std::alloc::{AllocError, Global};

/// The part of the policy, and the parts of what is left of it after each of its dups, in text order. All policies in
/// them are in the fields and ranges of the policy, and legs have labels of its dups. Its dups are numbered in text order
/// and each complement is of a predicate. The only error is that memory ran out.
pub fn parts(alloc: Global, p: &Pol) -> Result<Parts, AllocError>
    requires numbered { (f : ℕ) × (f + dups_of (tree_of p.now) ≤ 2 ^ 32)
        × (marked_from (tree_of p.now) f ≡ tree_of p.now) }
    requires complements { NegatesPredicates (tree_of p.now) }
    ensures first { IfOk result (λ r. IsPartOfDerivative r.first (tree_of p.now)) }
    ensures labels { IfOk result (λ r. map (λ e. e.0) r.after ≡ numbers_of (tree_of p.now)) }
    ensures after { IfOk result
        (λ r. All (λ e. IsPartOfDerivative e.1 (after (tree_of p.now) e.0)) r.after) }
    ensures within { IfOk result (λ r. All (λ e. IsWithin (tree_of p.now) e.1) r.after) }
{
    let free = keeping(alloc);
    let legs = List::new(alloc);
    let end = Part { free, legs };
    let first = part_of(alloc, p)?;
    let mut after = List::new(alloc);
    rests(alloc, p, &end, &mut after)?;
    Ok(Parts { first, after })
}
