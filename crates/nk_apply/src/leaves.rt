//! Operations leaf by leaf.
ghost use Rattle.std.specs.Prelude.{◌≡◌, ◌≤◌, min, ◌++◌, Some, IfOk, IfSome, OnOk, drop, length};
ghost use Rattle.nk_store.specs.StoreState.{IsId, look, root_field, recalled, Grows, HasLeaves};
ghost use Rattle.nk_store.specs.KeptAnswers.{GivesKept};
ghost use Rattle.nk_store.specs.declared.operation.Operation.TheVariants as operations;
ghost use Rattle.nk_apply.specs.Leaves.{merged, guarded, absent};
ghost use Rattle.nk_apply.specs.Predicates.{IsPredicate, HasOnlyFinals};

use crate::ascending::join_sorted;
use crate::pairs::{Join, merge, merge_anew};
use nk_field::{Act, List};
use nk_store::{Id, Node, Operation, Out, Store};
use std::alloc::{AllocError, Global};

/// Both leaves together.
struct Together;

/// The second leaf where the first is not empty.
struct Guard;

/// The packet itself where the first leaf is empty.
struct Absent;

impl Join for Together {
    ghost joined = { λ _. merged };

    fn known(&self, st: &Store, a: Id, b: Id) -> Option<Id> {
        if let Some(d) = united(st, a, b) {
            return Some(d);
        }
        st.recall(Operation::Union, a, b)
    }

    fn keep(&self, st: &mut Store, a: Id, b: Id, d: Id) -> Result<(), AllocError> {
        st.keep(Operation::Union, a, b, d)
    }

    fn join(&self, alloc: Global, a: &[Out], b: &[Out]) -> Result<List<Out>, AllocError> {
        join_sorted(alloc, a, b)
    }
}

/// Two diagrams together, where they are one or one of them drops each packet.
pub(crate) fn united(st: &Store, a: Id, b: Id) -> Option<Id>
    requires left { IsId st.now a }
    requires right { IsId st.now b }
    ensures { IfSome result (λ d.
        HasLeaves st.now d (λ pk. merged (look st.now a pk) (look st.now b pk))) }
{
    if a == b || st.drops(b) {
        st.laws();
        return Some(a);
    }
    if st.drops(a) { Some(b) } else { None }
}

impl Join for Guard {
    ghost joined = { λ _. guarded };

    fn known(&self, st: &Store, a: Id, b: Id) -> Option<Id> {
        if let Some(d) = guarded_by_leaf(st, a, b) {
            return Some(d);
        }
        st.recall(Operation::Both, a, b)
    }

    fn keep(&self, st: &mut Store, a: Id, b: Id, d: Id) -> Result<(), AllocError> {
        st.keep(Operation::Both, a, b, d)
    }

    fn join(&self, alloc: Global, a: &[Out], b: &[Out]) -> Result<List<Out>, AllocError> {
        if a.is_empty() {
            return Ok(List::new(alloc));
        }
        let mut all = List::with_capacity(alloc, b.len())?;
        copy_from(&mut all, b, 0)?;
        Ok(all)
    }
}

/// The second diagram where the first one is not empty, where the first one is a leaf or the second, or the second one drops
/// each packet.
fn guarded_by_leaf(st: &Store, a: Id, b: Id) -> Option<Id>
    requires left { IsId st.now a }
    requires right { IsId st.now b }
    ensures { IfSome result (λ d.
        HasLeaves st.now d (λ pk. guarded (look st.now a pk) (look st.now b pk))) }
{
    if a == b || st.drops(b) {
        return Some(b);
    }
    match st.view(a) {
        Node::Leaf(outs) => Some(if outs.is_empty() { a } else { b }),
        Node::Case(_, _) => None,
    }
}

impl Join for Absent {
    ghost joined = { λ _. absent };

    fn known(&self, st: &Store, a: Id, b: Id) -> Option<Id> {
        st.recall(Operation::Negate, a, b)
    }

    fn keep(&self, st: &mut Store, a: Id, b: Id, d: Id) -> Result<(), AllocError> {
        st.keep(Operation::Negate, a, b, d)
    }

    fn join(&self, alloc: Global, a: &[Out], _b: &[Out]) -> Result<List<Out>, AllocError> {
        let mut all = List::with_capacity(alloc, 1)?;
        if a.len() == 0 {
            all.push(Out {
                act: Act::none(alloc),
                target: 0,
            })?;
        }
        Ok(all)
    }
}

/// Appends the outs from this index on.
pub(crate) fn copy_from(all: &mut List<Out>, outs: &[Out], from: usize) -> Result<(), AllocError>
    requires { from ≤ length outs.now }
    ensures { OnOk result (all.new ≡ all.old ++ drop from outs.now) }
{
    for i in from..outs.len() {
        all.push(outs[i].copy()?)?;
    }
    Ok(())
}

/// Both leaves together.
pub fn union(st: &mut Store, a: Id, b: Id) -> Result<Id, AllocError>
    requires left { IsId st.old a }
    requires right { IsId st.old b }
    ensures grows { Grows st.old st.new }
    ensures ok { IfOk result
        (λ d. HasLeaves st.new d (λ pk. merged (look st.old a pk) (look st.old b pk))) }
    ensures predicate { IfOk result
        (λ d. IsPredicate st.old a → IsPredicate st.old b → IsPredicate st.new d) }
    ensures ends { IfOk result
        (λ d. HasOnlyFinals (look st.old a) → HasOnlyFinals (look st.old b)
        → HasOnlyFinals (look st.new d)) }
    ensures kept { IfOk result (λ d. recalled st.new operations.Union a b ≡ Some d) }
    ensures again { GivesKept st.old st.new operations.Union a b result }
{
    union_once(st, a, b)
}

/// Both leaves together, made once: the answer is kept, and given again at each later call.
fn union_once(st: &mut Store, a: Id, b: Id) -> Result<Id, AllocError>
    requires left { IsId st.old a }
    requires right { IsId st.old b }
    ensures grows { Grows st.old st.new }
    ensures ok { IfOk result
        (λ d. HasLeaves st.new d (λ pk. merged (look st.old a pk) (look st.old b pk))) }
    ensures kept { IfOk result (λ d. recalled st.new operations.Union a b ≡ Some d) }
    ensures again { GivesKept st.old st.new operations.Union a b result }
{
    if let Some(d) = st.recall(Operation::Union, a, b) {
        return Ok(d);
    }
    let d = union_anew(st, a, b)?;
    st.keep(Operation::Union, a, b, d)?;
    Ok(d)
}

/// Both leaves together, where no answer is kept.
fn union_anew(st: &mut Store, a: Id, b: Id) -> Result<Id, AllocError>
    requires left { IsId st.old a }
    requires right { IsId st.old b }
    ensures grows { Grows st.old st.new }
    ensures ok { IfOk result
        (λ d. HasLeaves st.new d (λ pk. merged (look st.old a pk) (look st.old b pk))) }
{
    match united(st, a, b) {
        Some(d) => Ok(d),
        None => merge_anew(st, &Together, a, b),
    }
}

/// Both leaves together; no field is tested before both test one. Where one of both is the answer, nothing is kept.
pub fn union_later(st: &mut Store, a: Id, b: Id) -> Result<Id, AllocError>
    requires left { IsId st.old a }
    requires right { IsId st.old b }
    ensures grows { Grows st.old st.new }
    ensures ok { IfOk result
        (λ d. HasLeaves st.new d (λ pk. merged (look st.old a pk) (look st.old b pk))) }
    ensures later { IfOk result
        (λ d. min (root_field st.old a) (root_field st.old b) ≤ root_field st.new d) }
{
    merge(st, &Together, a, b)
}

/// The diagram `d` where the predicate holds; elsewhere it drops the packet.
pub fn both(st: &mut Store, pred: Id, d: Id) -> Result<Id, AllocError>
    requires pred { IsId st.old pred }
    requires right { IsId st.old d }
    ensures grows { Grows st.old st.new }
    ensures ok { IfOk result
        (λ r. HasLeaves st.new r (λ pk. guarded (look st.old pred pk) (look st.old d pk))) }
    ensures predicate { IfOk result (λ r. IsPredicate st.old d → IsPredicate st.new r) }
    ensures ends { IfOk result
        (λ r. HasOnlyFinals (look st.old d) → HasOnlyFinals (look st.new r)) }
    ensures kept { IfOk result (λ r. recalled st.new operations.Both pred d ≡ Some r) }
    ensures again { GivesKept st.old st.new operations.Both pred d result }
{
    both_once(st, pred, d)
}

/// The diagram `d` where the predicate holds, made once: the answer is kept, and given again at each later call.
fn both_once(st: &mut Store, pred: Id, d: Id) -> Result<Id, AllocError>
    requires pred { IsId st.old pred }
    requires right { IsId st.old d }
    ensures grows { Grows st.old st.new }
    ensures ok { IfOk result
        (λ r. HasLeaves st.new r (λ pk. guarded (look st.old pred pk) (look st.old d pk))) }
    ensures kept { IfOk result (λ r. recalled st.new operations.Both pred d ≡ Some r) }
    ensures again { GivesKept st.old st.new operations.Both pred d result }
{
    if let Some(r) = st.recall(Operation::Both, pred, d) {
        return Ok(r);
    }
    let r = both_anew(st, pred, d)?;
    st.keep(Operation::Both, pred, d, r)?;
    Ok(r)
}

/// The diagram `d` where the predicate holds, where no answer is kept.
fn both_anew(st: &mut Store, pred: Id, d: Id) -> Result<Id, AllocError>
    requires pred { IsId st.old pred }
    requires right { IsId st.old d }
    ensures grows { Grows st.old st.new }
    ensures ok { IfOk result
        (λ r. HasLeaves st.new r (λ pk. guarded (look st.old pred pk) (look st.old d pk))) }
{
    match guarded_by_leaf(st, pred, d) {
        Some(r) => Ok(r),
        None => merge_anew(st, &Guard, pred, d),
    }
}

/// The diagram `d` where the predicate holds. Where one of both is the answer, nothing is kept.
pub fn both_later(st: &mut Store, pred: Id, d: Id) -> Result<Id, AllocError>
    requires pred { IsId st.old pred }
    requires right { IsId st.old d }
    ensures grows { Grows st.old st.new }
    ensures ok { IfOk result
        (λ r. HasLeaves st.new r (λ pk. guarded (look st.old pred pk) (look st.old d pk))) }
{
    merge(st, &Guard, pred, d)
}

/// The predicate that holds exactly where this one doesn't.
pub fn negate(st: &mut Store, pred: Id) -> Result<Id, AllocError>
    requires { IsId st.old pred }
    ensures grows { Grows st.old st.new }
    ensures ok { IfOk result
        (λ r. HasLeaves st.new r (λ pk. absent (look st.old pred pk) (look st.old pred pk))) }
    ensures predicate { IfOk result (λ r. IsPredicate st.new r) }
    ensures kept { IfOk result (λ r. recalled st.new operations.Negate pred pred ≡ Some r) }
    ensures again { GivesKept st.old st.new operations.Negate pred pred result }
{
    negate_once(st, pred)
}

/// The predicate that holds exactly where this one doesn't, made once: the answer is kept, and given again at each later
/// call.
fn negate_once(st: &mut Store, pred: Id) -> Result<Id, AllocError>
    requires { IsId st.old pred }
    ensures grows { Grows st.old st.new }
    ensures ok { IfOk result
        (λ r. HasLeaves st.new r (λ pk. absent (look st.old pred pk) (look st.old pred pk))) }
    ensures kept { IfOk result (λ r. recalled st.new operations.Negate pred pred ≡ Some r) }
    ensures again { GivesKept st.old st.new operations.Negate pred pred result }
{
    if let Some(r) = st.recall(Operation::Negate, pred, pred) {
        return Ok(r);
    }
    let r = merge_anew(st, &Absent, pred, pred)?;
    st.keep(Operation::Negate, pred, pred, r)?;
    Ok(r)
}
