//! A diagram at one value of a field.
ghost use Rattle.std.specs.Prelude.{◌<◌, ◌≤◌, IfOk, slice_set};
ghost use Rattle.nk_field.specs.Act.{applied};
ghost use Rattle.nk_store.specs.StoreState.{IsId, look, root_field, Grows, HasLeaves};
ghost use Rattle.nk_apply.specs.Predicates.{IsPredicate, HasOnlyFinals};

use crate::part::part_at;
use crate::walks::{NodeMap, map_nodes};
use nk_field::{Act, Fid};
use nk_store::{Id, Store};
use std::alloc::AllocError;

/// The diagram that gives each packet the leaf that `d` gives it with the field set to `n`.
pub fn restrict(st: &mut Store, d: Id, f: Fid, n: u64) -> Result<Id, AllocError>
    requires id { IsId st.old d }
    requires field { f < 18 }
    ensures grows { Grows st.old st.new }
    ensures ok { IfOk result (λ r. HasLeaves st.new r (λ pk. look st.old d (slice_set pk f n))) }
    ensures later { IfOk result (λ r. root_field st.old d ≤ root_field st.new r) }
    ensures predicate { IfOk result (λ r. IsPredicate st.old d → IsPredicate st.new r) }
    ensures ends { IfOk result
        (λ r. HasOnlyFinals (look st.old d) → HasOnlyFinals (look st.new r)) }
{
    restricted(st, d, f, n)
}

/// The diagram's leaf at the packet that an act makes.
pub fn shift(st: &mut Store, d: Id, act: &Act) -> Result<Id, AllocError>
    requires { IsId st.old d }
    ensures grows { Grows st.old st.new }
    ensures ok { IfOk result (λ r. HasLeaves st.new r (λ pk. look st.old d (applied act.now pk))) }
{
    let sets = act.as_slice();
    let mut to = d;
    let mut i = sets.len();
    while i > 0 {
        i -= 1;
        let (f, n) = sets[i];
        let _place = f.place();
        to = restrict(st, to, f, n)?;
    }
    Ok(to)
}

/// The diagram with the field at that value, by its leaves.
fn restricted(st: &mut Store, d: Id, f: Fid, n: u64) -> Result<Id, AllocError>
    requires { IsId st.old d }
    ensures grows { Grows st.old st.new }
    ensures ok { IfOk result (λ r. HasLeaves st.new r (λ pk. look st.old d (slice_set pk f n))) }
    ensures later { IfOk result (λ r. root_field st.old d ≤ root_field st.new r) }
{
    map_nodes(st, &At { field: f, value: n }, d)
}

/// Diagrams with the field at that value keep the fields before it.
#[derive(Drop)]
struct At {
    field: Fid,
    value: u64,
}

impl NodeMap for At {
    ghost taken = { λ s pk. slice_set pk s.field s.value };

    ghost made = { λ _ _ _ os. os };

    ghost kept = { λ s. s.field };

    ghost first = { λ _ t. t };

    ghost allowed = { λ _ _. Unit {0} };

    fn place(&self) -> usize {
        self.field.place()
    }

    fn is_quick(&self) -> bool {
        true
    }

    fn laws(&self) {}

    fn change(&self, st: &mut Store, d: Id) -> Result<Id, AllocError> {
        let _place = self.field.place();
        Ok(restrict_here(st, d, self.field, self.value))
    }
}

/// The diagram with the field at that value, where it tests no field before that one.
fn restrict_here(st: &Store, d: Id, f: Fid, n: u64) -> Id
    requires id { IsId st.now d }
    requires field { f < 18 }
    requires first { f ≤ root_field st.now d }
    ensures leaves { HasLeaves st.now result (λ pk. look st.now d (slice_set pk f n)) }
    ensures later { root_field st.now d ≤ root_field st.now result }
{
    let v = n.min(st.max(f));
    let (_, c) = part_at(st, d, f, v);
    let _child = st.view(c);
    let _first = st.view(d);
    c
}
