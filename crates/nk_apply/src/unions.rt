//! Many diagrams together.
ghost use Rattle.std.specs.Prelude.{ℕ, ◌<◌, IfOk, IfSome, length, slice_index};
ghost use Rattle.nk_store.specs.StoreState.{Grows, HasLeaves};
ghost use Rattle.nk_apply.specs.Unions.{AreIds, unions};
ghost use Rattle.nk_apply.specs.Predicates.{IsPredicate};

use crate::constants::empty;
use crate::leaves::united;
use crate::many::{least_place, union_many};
use crate::sums::union_at;
use nk_field::{Fid, PLACES};
use nk_store::{Id, Store};
use std::alloc::AllocError;

/// The diagram that gives each packet the outs of all of these diagrams.
pub fn union_all(st: &mut Store, ds: &[Id]) -> Result<Id, AllocError>
    requires { AreIds st.old ds.now }
    ensures grows { Grows st.old st.new }
    ensures ok { IfOk result
        (λ r. HasLeaves st.new r (λ pk. unions st.old ds.now 0 (length ds.now) pk)) }
    ensures predicate { IfOk result
        (λ r. ((k : ℕ) → k < length ds.now → IsPredicate st.old (slice_index ds.now k))
        → IsPredicate st.new r) }
{
    unions_of(st, ds)
}

/// All leaves together, by its leaves.
fn unions_of(st: &mut Store, ds: &[Id]) -> Result<Id, AllocError>
    requires { AreIds st.old ds.now }
    ensures grows { Grows st.old st.new }
    ensures ok { IfOk result
        (λ r. HasLeaves st.new r (λ pk. unions st.old ds.now 0 (length ds.now) pk)) }
{
    if ds.len() == 0 {
        return empty(st);
    }
    if let Some(d) = alone(st, ds) {
        return Ok(d);
    }
    let place = least_place(st, ds);
    if ds.len() > 2 && place < PLACES {
        return union_at(st, Fid::new(place as u8), ds);
    }
    union_many(st, ds)
}

/// All leaves together, where all of these diagrams but one drop each packet, or are that one too.
fn alone(st: &Store, ds: &[Id]) -> Option<Id>
    requires ids { AreIds st.now ds.now }
    requires some { 0 < length ds.now }
    ensures { IfSome result (λ r.
        HasLeaves st.now r (λ pk. unions st.now ds.now 0 (length ds.now) pk)) }
{
    st.laws();
    let mut found = ds[0];
    for i in 1..ds.len() {
        match united(st, found, ds[i]) {
            Some(d) => found = d,
            None => return None,
        }
    }
    Some(found)
}
