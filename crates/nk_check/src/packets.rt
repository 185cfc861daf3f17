//! Predicates as sets of packets.
ghost use Rattle.std.specs.Prelude.{◌≡◌, true, false, IfOk};
ghost use Rattle.nk_policy.specs.Policy.{is_predicate};
ghost use Rattle.nk_policy.specs.Tree.{tree_of};
ghost use Rattle.nk_store.specs.StoreState.{IsId, Grows};
ghost use Rattle.nk_cert.specs.Levelled.{HasEach};
ghost use Rattle.nk_check.specs.Judged.{IsPacketsOf};

use nk_apply::negate;
use nk_auto::silent;
use nk_policy::Pol;
use nk_sets::is_empty;
use nk_store::{Id, Store};
use std::alloc::AllocError;

/// The packets that a predicate keeps.
pub(crate) fn packets_of(st: &mut Store, predicate: &Pol) -> Result<Id, AllocError>
    requires { is_predicate (tree_of predicate.now) ≡ true }
    ensures grows { Grows st.old st.new }
    ensures ok { IfOk result (λ d. IsPacketsOf st.new (tree_of predicate.now) d) }
{
    let kept = silent(st, predicate)?;
    let others = negate(st, kept)?;
    let packets = negate(st, others)?;
    Ok(packets)
}

/// Whether a set has all packets.
pub(crate) fn has_each(st: &mut Store, packets: Id) -> Result<bool, AllocError>
    requires { IsId st.old packets }
    ensures grows { Grows st.old st.new }
    ensures yes { IfOk result (λ b. b ≡ true → HasEach st.old packets) }
    ensures no { IfOk result (λ b. b ≡ false → HasEach st.old packets → ⊥) }
{
    let others = negate(st, packets)?;
    Ok(is_empty(st, others))
}
