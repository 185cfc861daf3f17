//! The steps of leaves together, act by act: where the acts are few and assign the same fields, two of them that make one
//! packet are one, so that the labels of an act are all that lead to what it makes.
ghost use Rattle.std.specs.Prelude.{◌≡◌, ◌↔◌, ℕ, ◌+◌, ◌<◌, ◌≤◌, ◌++◌, ◌∷◌, [], true, length, slice_index_or, Contains, List as Items, IfOk, IfSome, OnOk};
ghost use Rattle.std.specs.List.Sorted.{IsStrictlyIncreasing};
ghost use Rattle.nk_store.specs.declared.node.Out.{Out};
ghost use Rattle.nk_store.specs.StoreState.{IsId, IsStorePacket, root_field, Grows};
ghost use Rattle.nk_apply.specs.Seqs.{outs_of};
ghost use Rattle.nk_apply.specs.Unions.{AreIds, AreFrom, outs_in_turn};
ghost use Rattle.nk_determ.specs.Exact.{Sends};
ghost use Rattle.nk_determ.specs.Sets.{SetsGrow};
ghost use Rattle.nk_determ.specs.Branches.{labels_of};
ghost use Rattle.nk_determ.specs.States.{SomeLeads, AreLedTo};
ghost use Rattle.nk_steps.specs.Plain.{fields_in};
ghost use Rattle.nk_steps.specs.ByAct.{AreActsOf, IsTargetOf, AreOutsByAct};

use crate::plain::assigns_same;
use nk_determ::Sets;
use nk_field::{Act, List};
use nk_store::{Id, Node, Out, Store};
use std::alloc::AllocError;

/// With how many different acts the outs of leaves are still looked at act by act.
const MOST_ACTS: usize = 8;

/// The acts of these leaves' outs that are no finals. None where a diagram is no leaf, where there are many acts, or where two
/// of them assign different fields. The only error is that memory ran out.
pub(crate) fn acts_of(st: &Store, diagrams: &[Id]) -> Result<Option<List<Act>>, AllocError>
    requires { AreIds st.now diagrams.now }
    ensures leaves { IfOk result (λ acts. IfSome acts (λ gs. AreFrom st.now 18 diagrams.now)) }
    ensures acts { IfOk result
        (λ acts. IfSome acts (λ gs. AreActsOf (outs_in_turn st.now diagrams.now) gs)) }
{
    let mut acts = List::new(st.alloc());
    for d in diagrams {
        if !add_acts_of(st, &mut acts, *d)? {
            return Ok(None);
        }
    }
    Ok(Some(acts))
}

/// Puts in the acts of a leaf's outs that are no finals. Not where the diagram is no leaf, where there are many acts, or where
/// two of them assign different fields.
fn add_acts_of(st: &Store, acts: &mut List<Act>, d: Id) -> Result<bool, AllocError>
    requires { IsId st.now d }
    ensures leaf { IfOk result (λ b. b ≡ true → 18 ≤ root_field st.now d) }
    ensures acts { IfOk result
        (λ b. b ≡ true → (before : Items Out) → AreActsOf before acts.old
        → AreActsOf (before ++ outs_of st.now d) acts.new) }
{
    match st.view(d) {
        Node::Leaf(outs) => add_acts(acts, outs.as_slice()),
        Node::Case(_, _) => Ok(false),
    }
}

/// Puts in the acts of these outs that are no finals. Not where there are many acts, or where two of them assign different
/// fields.
fn add_acts(acts: &mut List<Act>, outs: &[Out]) -> Result<bool, AllocError>
    ensures { IfOk result (λ b. b ≡ true → (before : Items Out) → AreActsOf before acts.old
        → AreActsOf (before ++ outs.now) acts.new) }
{
    for o in outs {
        if !add_act(acts, o)? {
            return Ok(false);
        }
    }
    Ok(true)
}

/// Puts in the act of an out that is no final, unless it is there. Not where there are many acts, or where the first of them
/// assigns other fields.
fn add_act(acts: &mut List<Act>, o: &Out) -> Result<bool, AllocError>
    ensures { IfOk result (λ b. b ≡ true → (before : Items Out) → AreActsOf before acts.old
        → AreActsOf (before ++ o.now ∷ []) acts.new) }
{
    if o.target == 0 || has_act(acts.as_slice(), &o.act) {
        return Ok(true);
    }
    if acts.len() == MOST_ACTS || !goes_with(acts.as_slice(), &o.act) {
        return Ok(false);
    }
    acts.push(o.act.copy()?)?;
    Ok(true)
}

/// Whether an act is one of these.
fn has_act(acts: &[Act], act: &Act) -> bool
    ensures { result ≡ true → Contains acts.now act.now }
{
    for a in acts {
        if *a == *act {
            return true;
        }
    }
    false
}

/// Whether an act assigns the same fields as the first of these, if there is one.
fn goes_with(acts: &[Act], act: &Act) -> bool
    ensures { result ≡ true → 0 < length acts.now
        → fields_in (slice_index_or acts.now 0 []) ≡ fields_in act.now }
{
    acts.is_empty() || assigns_same(acts[0].as_slice(), act.as_slice())
}

/// The steps of these leaves, whose acts are given.
pub(crate) fn steps_by_act(
    st: &mut Store,
    ss: &mut Sets,
    diagrams: &[Id],
    acts: List<Act>,
) -> Result<Id, AllocError>
    requires ids { AreIds st.old diagrams.now }
    requires leaves { AreFrom st.old 18 diagrams.now }
    requires acts { AreActsOf (outs_in_turn st.old diagrams.now) acts }
    ensures grows { Grows st.old st.new }
    ensures sets { SetsGrow ss.old ss.new }
    ensures id { IfOk result (λ r. IsId st.new r) }
    ensures leads { IfOk result
        (λ r. (pk y : Items ℕ) (i : ℕ) → IsStorePacket st.old pk → Sends st.new r pk y (i + 1) →
        AreLedTo ss.new st.old diagrams.now pk y i) }
    ensures led { IfOk result (λ r. (pk y : Items ℕ) (l : ℕ) → IsStorePacket st.old pk → 0 < l →
        SomeLeads st.old diagrams.now pk y l → (i : ℕ) × Sends st.new r pk y (i + 1)) }
{
    st.laws();
    let outs = outs_by_act(st, ss, diagrams, acts)?;
    st.leaf(outs)
}

/// An out for each act, to the set of all labels with which the leaves have it. Sets that aren't there yet are put in.
fn outs_by_act(
    st: &Store,
    ss: &mut Sets,
    diagrams: &[Id],
    acts: List<Act>,
) -> Result<List<Out>, AllocError>
    requires ids { AreIds st.now diagrams.now }
    requires acts { AreActsOf (outs_in_turn st.now diagrams.now) acts }
    ensures grows { SetsGrow ss.old ss.new }
    ensures is { IfOk result
        (λ outs. AreOutsByAct ss.new (outs_in_turn st.now diagrams.now) acts outs) }
{
    let mut outs = List::with_capacity(st.alloc(), acts.len())?;
    for act in acts.into_vec() {
        let target = target_of(st, ss, diagrams, &act)?;
        outs.push(Out { act, target })?;
    }
    Ok(outs)
}

/// The target of the set of all labels with which the leaves have an act, of which there are some. The set is put in where it
/// isn't there.
fn target_of(st: &Store, ss: &mut Sets, diagrams: &[Id], act: &Act) -> Result<u64, AllocError>
    requires ids { AreIds st.now diagrams.now }
    requires some { (l : ℕ) × (0 < l)
        × Contains (outs_in_turn st.now diagrams.now) (record { act = act.now; target = l }) }
    ensures grows { SetsGrow ss.old ss.new }
    ensures is { IfOk result (λ t. IsTargetOf ss.new (outs_in_turn st.now diagrams.now) act.now t) }
{
    let found = labels_by(st, diagrams, act)?;
    let labels = fitted(in_order(found), diagrams.len())?;
    let s = ss.put(labels)?;
    Ok(s.target())
}

/// The labels with which these leaves have an act, one leaf's after the other's.
fn labels_by(st: &Store, diagrams: &[Id], act: &Act) -> Result<List<u64>, AllocError>
    requires { AreIds st.now diagrams.now }
    ensures { IfOk result (λ ls. ls ≡ labels_of act.now (outs_in_turn st.now diagrams.now)) }
{
    let mut all = List::with_capacity(st.alloc(), diagrams.len())?;
    for d in diagrams {
        push_labels_of(&mut all, st, *d, act)?;
    }
    Ok(all)
}

/// Appends the labels with which a leaf has an act.
fn push_labels_of(all: &mut List<u64>, st: &Store, d: Id, act: &Act) -> Result<(), AllocError>
    requires { IsId st.now d }
    ensures { OnOk result (all.new ≡ all.old ++ labels_of act.now (outs_of st.now d)) }
{
    match st.view(d) {
        Node::Leaf(outs) => push_labels(all, outs.as_slice(), act),
        Node::Case(_, _) => Ok(()),
    }
}

/// Appends the labels with which outs have an act.
fn push_labels(all: &mut List<u64>, outs: &[Out], act: &Act) -> Result<(), AllocError>
    ensures { OnOk result (all.new ≡ all.old ++ labels_of act.now outs.now) }
{
    for o in outs {
        if o.target != 0 && o.act == *act {
            all.push(o.target)?;
        }
    }
    Ok(())
}

/// The labels in order, each once.
fn in_order(labels: List<u64>) -> List<u64>
    ensures members { (l : ℕ) → Contains result l ↔ Contains labels l }
    ensures ascend { IsStrictlyIncreasing result }
{
    if ascend(labels.as_slice()) {
        return labels;
    }
    let mut all = labels.into_vec();
    all.sort_unstable();
    all.dedup();
    List::from_vec(all)
}

/// Whether each label is below the next one.
fn ascend(labels: &[u64]) -> bool
    ensures { result ≡ true → IsStrictlyIncreasing labels.now }
{
    for i in 1..labels.len() {
        if labels[i - 1] >= labels[i] {
            return false;
        }
    }
    true
}

/// The list, with room for its labels alone: it was made with room for so many.
fn fitted(labels: List<u64>, room: usize) -> Result<List<u64>, AllocError>
    ensures { IfOk result (λ ls. ls ≡ labels) }
{
    if labels.len() == room {
        return Ok(labels);
    }
    labels.copy()
}
