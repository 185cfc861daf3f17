//! The steps of a diagram whose leaves have one label each at most.
ghost use Rattle.std.specs.Prelude.{◌≡◌, ℕ, ◌+◌, ◌<◌, ◌≤◌, ◌++◌, true, [], ◌∷◌, List as Items, IfOk, IfSome, OnOk};
ghost use Rattle.std.specs.List.{flat_map};
ghost use Rattle.nk_store.specs.StoreState.{IsId, IsStorePacket, root_field, Grows};
ghost use Rattle.nk_apply.specs.Cofactors.{IsSplit};
ghost use Rattle.nk_determ.specs.Exact.{Sends};
ghost use Rattle.nk_determ.specs.Sets.{SetsGrow, holds, place_in};
ghost use Rattle.nk_determ.specs.States.{SomeLeads, AreLedTo};
ghost use Rattle.nk_steps.specs.Single.{step_to, first_label, AreSteps, AreLeafSteps, IsSingle, AreSingle, AreSingleBy};

use crate::plain::have_label;
use nk_apply::{Memo, known, part_count, part_near, tested};
use nk_determ::Sets;
use nk_field::{Fid, List};
use nk_store::{Id, Node, Out, Store};
use std::alloc::{AllocError, Global};

/// The steps of a diagram whose leaves each have outs to one label at most beside finals: each out that is no final, to 1 +
/// the number of the set of its label alone, which is put in where it isn't there. `None` where some leaf has outs to several
/// labels. Each node is visited once. The only error is that memory ran out.
pub(crate) fn steps_single(st: &mut Store, ss: &mut Sets, d: Id) -> Result<Option<Id>, AllocError>
    requires { IsId st.old d }
    ensures grows { Grows st.old st.new }
    ensures sets { SetsGrow ss.old ss.new }
    ensures id { IfOk result (λ o. IfSome o (λ r. IsId st.new r)) }
    ensures leads { IfOk result
        (λ o. IfSome o (λ r. (pk y : Items ℕ) (i : ℕ) → IsStorePacket st.old pk →
        Sends st.new r pk y (i + 1) → AreLedTo ss.new st.old (d ∷ []) pk y i)) }
    ensures led { IfOk result
        (λ o. IfSome o (λ r. (pk y : Items ℕ) (l : ℕ) → IsStorePacket st.old pk → 0 < l →
        SomeLeads st.old (d ∷ []) pk y l → (i : ℕ) × Sends st.new r pk y (i + 1))) }
{
    if st.drops(d) {
        return Ok(Some(d));
    }
    let mut seen = Memo::new(st.alloc());
    let steps = single_new(st, ss, &mut seen, d)?;
    Ok(steps)
}

/// The steps of a diagram, which are looked up where they were made before.
#[cycle(steps_single)]
fn single_once(
    st: &mut Store,
    ss: &mut Sets,
    seen: &mut Memo<Id>,
    d: Id,
) -> Result<Option<Id>, AllocError>
    requires id { IsId st.old d }
    requires seen { AreSingle st.old ss.old seen.old }
    ensures grows { Grows st.old st.new }
    ensures sets { SetsGrow ss.old ss.new }
    ensures ok { IfOk result (λ o. IfSome o (λ r. IsSingle st.old d st.new ss.new r)) }
    ensures seen { OnOk result (AreSingle st.new ss.new seen.new) }
{
    if let Some(made) = known(seen, d) {
        return Ok(Some(made));
    }
    let Some(r) = single_new(st, ss, seen, d)? else {
        return Ok(None);
    };
    seen.insert(d, r)?;
    Ok(Some(r))
}

/// The steps of a diagram, made anew.
#[cycle(steps_single)]
fn single_new(
    st: &mut Store,
    ss: &mut Sets,
    seen: &mut Memo<Id>,
    d: Id,
) -> Result<Option<Id>, AllocError>
    requires id { IsId st.old d }
    requires seen { AreSingle st.old ss.old seen.old }
    ensures grows { Grows st.old st.new }
    ensures sets { SetsGrow ss.old ss.new }
    ensures ok { IfOk result (λ o. IfSome o (λ r. IsSingle st.old d st.new ss.new r)) }
    ensures seen { OnOk result (AreSingle st.new ss.new seen.new) }
{
    match tested(st, d) {
        None => single_leaf(st, ss, d),
        Some(f) => single_case(st, ss, seen, f, d),
    }
}

/// The steps of a diagram by the field that it tests first.
#[cycle(steps_single)]
fn single_case(
    st: &mut Store,
    ss: &mut Sets,
    seen: &mut Memo<Id>,
    f: Fid,
    d: Id,
) -> Result<Option<Id>, AllocError>
    requires id { IsId st.old d }
    requires field { f < 18 }
    requires first { root_field st.old d ≡ f }
    requires split { IsSplit st.old f d }
    requires seen { AreSingle st.old ss.old seen.old }
    ensures grows { Grows st.old st.new }
    ensures sets { SetsGrow ss.old ss.new }
    ensures ok { IfOk result (λ o. IfSome o (λ r. IsSingle st.old d st.new ss.new r)) }
    ensures seen { OnOk result (AreSingle st.new ss.new seen.new) }
{
    let Some(parts) = single_parts(st, ss, seen, f, d)? else {
        return Ok(None);
    };
    let r = st.case(f, parts)?;
    Ok(Some(r))
}

/// The parts of the steps by the first field.
#[cycle(steps_single)]
fn single_parts(
    st: &mut Store,
    ss: &mut Sets,
    seen: &mut Memo<Id>,
    f: Fid,
    d: Id,
) -> Result<Option<List<(u64, Id)>>, AllocError>
    requires id { IsId st.old d }
    requires field { f < 18 }
    requires first { root_field st.old d ≡ f }
    requires split { IsSplit st.old f d }
    requires seen { AreSingle st.old ss.old seen.old }
    ensures grows { Grows st.old st.new }
    ensures sets { SetsGrow ss.old ss.new }
    ensures ok { IfOk result (λ o. IfSome o (λ ps. AreSingleBy st.old f d st.new ss.new ps)) }
    ensures seen { OnOk result (AreSingle st.new ss.new seen.new) }
{
    let max = st.max(f);
    let mut parts = List::with_capacity(st.alloc(), part_count(st, d, f))?;
    let mut near = 0;
    let mut from = 0;
    loop {
        let (end, child) = part_near(st, d, f, from, &mut near);
        let Some(to) = single_once(st, ss, seen, child)? else {
            return Ok(None);
        };
        parts.push((end, to))?;
        if end == max {
            return Ok(Some(parts));
        }
        from = end + 1;
    }
}

/// The steps of a leaf.
fn single_leaf(st: &mut Store, ss: &mut Sets, d: Id) -> Result<Option<Id>, AllocError>
    requires id { IsId st.old d }
    requires leaf { 18 ≤ root_field st.old d }
    ensures grows { Grows st.old st.new }
    ensures sets { SetsGrow ss.old ss.new }
    ensures ok { IfOk result (λ o. IfSome o (λ r. IsSingle st.old d st.new ss.new r)) }
{
    let Some(outs) = leaf_steps(st, ss, d)? else {
        return Ok(None);
    };
    let r = st.leaf_in_order(outs)?;
    Ok(Some(r))
}

/// The outs of the steps of a leaf.
fn leaf_steps(st: &Store, ss: &mut Sets, d: Id) -> Result<Option<List<Out>>, AllocError>
    requires id { IsId st.now d }
    requires leaf { 18 ≤ root_field st.now d }
    ensures sets { SetsGrow ss.old ss.new }
    ensures ok { IfOk result (λ o. IfSome o (λ r. AreLeafSteps st.now d ss.new r)) }
{
    match st.view(d) {
        Node::Leaf(outs) => outs_single(st.alloc(), ss, outs.as_slice()),
        Node::Case(_, _) => unreachable!(),
    }
}

/// The steps among outs; `None` where they have several labels.
fn outs_single(alloc: Global, ss: &mut Sets, outs: &[Out]) -> Result<Option<List<Out>>, AllocError>
    ensures sets { SetsGrow ss.old ss.new }
    ensures ok { IfOk result (λ o. IfSome o (λ r. AreSteps ss.new outs.now r)) }
{
    let label = label_in(outs);
    if !have_label(outs, label) {
        return Ok(None);
    }
    if label == 0 {
        return Ok(Some(List::new(alloc)));
    }
    let target = target_single(alloc, ss, label)?;
    let steps = steps_to(alloc, outs, target)?;
    Ok(Some(steps))
}

/// The first label among the targets of outs; 0 where all are finals.
fn label_in(outs: &[Out]) -> u64
    ensures { result ≡ first_label outs.now }
{
    for o in outs {
        if o.target != 0 {
            return o.target;
        }
    }
    0
}

/// The target of the set of a label alone, which is put in where it isn't there.
fn target_single(alloc: Global, ss: &mut Sets, label: u64) -> Result<u64, AllocError>
    ensures sets { SetsGrow ss.old ss.new }
    ensures ok { IfOk result
        (λ t. (later : Items (Items ℕ)) → SetsGrow ss.new later
        → t ≡ place_in later (label ∷ []) + 1) }
    ensures there { OnOk result (holds ss.new (label ∷ []) ≡ true) }
{
    let mut labels = List::with_capacity(alloc, 1)?;
    labels.push(label)?;
    let s = ss.put(labels)?;
    Ok(s.target())
}

/// Copies of the outs that are no finals to one target, in their order.
fn steps_to(alloc: Global, outs: &[Out], target: u64) -> Result<List<Out>, AllocError>
    ensures { IfOk result (λ r. r ≡ flat_map (step_to target) outs.now) }
{
    let mut all = List::with_capacity(alloc, outs.len())?;
    for o in outs {
        push_step(&mut all, o, target)?;
    }
    Ok(all)
}

/// Appends the out to the target, unless it is a final.
fn push_step(all: &mut List<Out>, o: &Out, target: u64) -> Result<(), AllocError>
    ensures { OnOk result (all.new ≡ all.old ++ step_to target o.now) }
{
    if o.target != 0 {
        all.push(Out {
            act: o.act.copy()?,
            target,
        })?;
    }
    Ok(())
}
