//! The outs of a diagram that another one lacks.
ghost use Rattle.std.specs.Prelude.{◌≡◌, IfOk, IfSome};
ghost use Rattle.nk_store.specs.Leaves.{Strict};
ghost use Rattle.nk_store.specs.StoreState.{IsId, look, Grows, HasLeaves};
ghost use Rattle.nk_store.specs.Operations.{has_out, lacking};

use nk_algebra::{Join, merge};
use nk_field::List;
use nk_store::{Id, Operation, Out, Store};
use std::alloc::{AllocError, Global};

/// The outs of the first leaf that the second one lacks.
struct Difference;

impl Join for Difference {
    ghost joined = { λ _. lacking };

    fn known(&self, st: &Store, a: Id, b: Id) -> Option<Id> {
        if let Some(d) = known_missing(st, a, b) {
            return Some(d);
        }
        st.recall(Operation::Missing, a, b)
    }

    fn keep(&self, st: &mut Store, a: Id, b: Id, d: Id) -> Result<(), AllocError> {
        st.keep(Operation::Missing, a, b, d)
    }

    fn join(&self, alloc: Global, a: &[Out], b: &[Out]) -> Result<List<Out>, AllocError> {
        missing_outs(alloc, a, b)
    }
}

/// The outs that the second diagram lacks, where one of both drops each packet.
fn known_missing(st: &Store, a: Id, b: Id) -> Option<Id>
    requires left { IsId st.now a }
    requires right { IsId st.now b }
    ensures { IfSome result (λ d.
        HasLeaves st.now d (λ pk. lacking (look st.now a pk) (look st.now b pk))) }
{
    if st.drops(a) {
        return Some(a);
    }
    if st.drops(b) { Some(a) } else { None }
}

/// The outs of a leaf that another one, which ascends, lacks.
fn missing_outs(alloc: Global, a: &[Out], b: &[Out]) -> Result<List<Out>, AllocError>
    requires { Strict b.now }
    ensures { IfOk result (λ r. r ≡ lacking a.now b.now) }
{
    let mut all = List::with_capacity(alloc, a.len())?;
    for o in a {
        if !has(b, o) {
            all.push(o.copy()?)?;
        }
    }
    Ok(all)
}

/// Whether an ascending leaf has the out.
fn has(outs: &[Out], o: &Out) -> bool
    requires { Strict outs.now }
    ensures { result ≡ has_out outs.now o.now }
{
    outs.binary_search(o).is_ok()
}

/// At each packet the outs of the first diagram that the second one lacks.
pub fn missing(st: &mut Store, a: Id, b: Id) -> Result<Id, AllocError>
    requires left { IsId st.old a }
    requires right { IsId st.old b }
    ensures grows { Grows st.old st.new }
    ensures ok { IfOk result
        (λ d. HasLeaves st.new d (λ pk. lacking (look st.old a pk) (look st.old b pk))) }
{
    merge(st, &Difference, a, b)
}
