//! Diagrams with one leaf for all packets.
ghost use Rattle.std.specs.Prelude.{◌≡◌, ◌∷◌, [], IfOk};
ghost use Rattle.nk_store.specs.StoreState.{root_field, Grows, HasLeaves};
ghost use Rattle.nk_apply.specs.Seqs.{no_out};
ghost use Rattle.nk_apply.specs.Predicates.{IsPredicate};

use nk_store::{Id, Store};
use std::alloc::AllocError;

/// The diagram that passes each packet as it is, to target 0.
pub fn identity(st: &mut Store) -> Result<Id, AllocError>
    ensures grows { Grows st.old st.new }
    ensures ok { IfOk result (λ d. HasLeaves st.new d (λ pk. no_out ∷ [])) }
    ensures later { IfOk result (λ d. root_field st.new d ≡ 18) }
    ensures predicate { IfOk result (λ d. IsPredicate st.new d) }
{
    st.identity()
}

/// The diagram that drops each packet.
pub fn empty(st: &mut Store) -> Result<Id, AllocError>
    ensures grows { Grows st.old st.new }
    ensures ok { IfOk result (λ d. HasLeaves st.new d (λ pk. [])) }
    ensures later { IfOk result (λ d. root_field st.new d ≡ 18) }
    ensures predicate { IfOk result (λ d. IsPredicate st.new d) }
{
    st.empty()
}
