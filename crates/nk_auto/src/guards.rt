//! Predicates side by side in a sequence, as one guard before what the sequence does after them.
ghost use Rattle.std.specs.Prelude.{ℕ, IfOk, IfSome};
ghost use Rattle.nk_policy.specs.Policy.{Policy, Policies, seq_of, part};
ghost use Rattle.nk_policy.specs.Tree.{tree_of};
ghost use Rattle.nk_store.specs.StoreState.{IsId, Grows};
ghost use Rattle.nk_apply.specs.Predicates.{IsPredicate};
ghost use Rattle.nk_auto.specs.Continued.{IsSilent, IsContinued};
ghost use Rattle.nk_auto.specs.Guarded.{NeverRecords, IsGuarded};

use crate::silence::{silent_not, silent_predicate, silent_range, silent_test};
use nk_algebra::{both, identity};
use nk_policy::{Pol, is_predicate};
use nk_sets::at_packets;
use nk_store::{Id, Store};
use std::alloc::AllocError;

/// What a sequence does from a place on: the predicates that stand there side by side, as one, and the diagram of what is
/// after them.
#[derive(Clone, Copy)]
pub struct GuardedRest {
    /// The diagram of the predicates; it holds for all packets where there is none.
    pub guard: Id,
    /// The diagram of what is after the predicates.
    pub rest: Id,
}

/// A diagram with no predicate before it.
pub fn unguarded(st: &mut Store, rest: Id) -> Result<GuardedRest, AllocError>
    ensures grows { Grows st.old st.new }
    ensures ok { IfOk result
        (λ b. (p : Policy) (k : ℕ) → IsContinued st.old rest p k
        → IsGuarded st.new b.guard b.rest p k) }
{
    let guard = identity(st)?;
    Ok(GuardedRest { guard, rest })
}

/// The predicates and what is after them as one diagram. The walk goes along the packets of the predicates alone.
pub fn put_together(st: &mut Store, following: GuardedRest) -> Result<Id, AllocError>
    requires guard { IsId st.old following.guard }
    requires rest { IsId st.old following.rest }
    ensures grows { Grows st.old st.new }
    ensures id { IfOk result (λ d. IsId st.new d) }
    ensures ok { IfOk result
        (λ d. (p : Policy) (k : ℕ) → IsGuarded st.old following.guard following.rest p k
        → IsContinued st.new d p k) }
{
    let d = at_packets(st, following.guard, following.rest)?;
    Ok(d)
}

/// Puts one more predicate, `d`, before the predicates; what is after them stays.
pub fn guarded_by(st: &mut Store, d: Id, following: GuardedRest) -> Result<GuardedRest, AllocError>
    requires id { IsId st.old d }
    requires guard { IsId st.old following.guard }
    ensures grows { Grows st.old st.new }
    ensures ok { IfOk result
        (λ b. (p : Policy) (ps : Policies) (k : ℕ) → NeverRecords p → IsSilent st.old d p
        → IsPredicate st.old d →
        IsGuarded st.old following.guard following.rest (seq_of ps) k
        → IsGuarded st.new b.guard b.rest (seq_of (part p ps)) k) }
{
    let guard = both(st, d, following.guard)?;
    Ok(GuardedRest {
        guard,
        rest: following.rest,
    })
}

/// The diagram of a test, a range, a complement or a sum of predicates; none for another policy.
#[tactic(auto, using(nk_policy::proofs::Trees::tree_of_sum, nk_policy::proofs::Trees::tree_of_seq, crate::proofs::Guarding::test_guards, crate::proofs::Guarding::range_guards, crate::proofs::Guarding::not_guards, crate::proofs::Guarding::predicate_guards))]
pub fn guard_of(st: &mut Store, p: &Pol) -> Result<Option<Id>, AllocError>
    ensures grows { Grows st.old st.new }
    ensures ok { IfOk result (λ o. IfSome o (λ d. IsSilent st.new d (tree_of p.now))) }
    ensures predicate { IfOk result (λ o. IfSome o (λ d. IsPredicate st.new d)) }
    ensures guard { IfOk result (λ o. IfSome o (λ d. NeverRecords (tree_of p.now))) }
{
    match p {
        Pol::Test(f, n) => {
            let d = silent_test(st, *f, *n)?;
            Ok(Some(d))
        }
        Pol::Range(f, lo, hi) => {
            let d = silent_range(st, *f, *lo, *hi)?;
            Ok(Some(d))
        }
        Pol::Not(q) => {
            let d = silent_not(st, q)?;
            Ok(Some(d))
        }
        Pol::Sum(_) => guard_of_sum(st, p),
        _ => Ok(None),
    }
}

/// The diagram of a predicate; none for another policy.
fn guard_of_sum(st: &mut Store, p: &Pol) -> Result<Option<Id>, AllocError>
    ensures grows { Grows st.old st.new }
    ensures ok { IfOk result (λ o. IfSome o (λ d. IsSilent st.new d (tree_of p.now))) }
    ensures predicate { IfOk result (λ o. IfSome o (λ d. IsPredicate st.new d)) }
    ensures guard { IfOk result (λ o. IfSome o (λ d. NeverRecords (tree_of p.now))) }
{
    if is_predicate(p) {
        let d = silent_predicate(st, p)?;
        return Ok(Some(d));
    }
    Ok(None)
}
