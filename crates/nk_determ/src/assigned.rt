//! What the acts of a diagram assign: to which fields, and which values to one of them.
ghost use Rattle.std.specs.Prelude.{◌≡◌, ◌==◌, ℕ, ◌<◌, ◌≤◌, ◌++◌, true, false, List as Items, IfOk, OnOk, length, slice_index_or};
ghost use Rattle.std.specs.List.{Contains, list_any};
ghost use Rattle.std.specs.List.Sorted.{IsNonDecreasing};
ghost use Rattle.nk_store.specs.declared.node.Out.{Out};
ghost use Rattle.nk_store.specs.StoreState.{IsId};
ghost use Rattle.nk_determ.specs.Unchanged.{act_values, leaf_values, act_fields, leaf_fields, AreAmong, HasItems, AllHaveItems, HasValues, AssignsAmong};

use nk_field::{Fid, List};
use nk_store::{Id, Node, Out, Store};
use std::alloc::AllocError;
use std::collections::HashSet;

/// What is collected of each leaf of a diagram.
trait Collector {
    ghost items: { Self → Items Out → Items ℕ };

    /// Appends the items of a leaf, or those that are not there yet.
    fn add(&self, found: &mut List<u64>, outs: &[Out]) -> Result<(), AllocError>
        ensures more { AreAmong found.old found.new }
        ensures ok { OnOk result (AreAmong (items self.now outs.now) found.new) };
}

/// The values that acts assign to a field.
#[derive(Drop)]
struct ValuesOf {
    field: Fid,
}

impl Collector for ValuesOf {
    ghost items = { λ s os. leaf_values s.field os };

    fn add(&self, found: &mut List<u64>, outs: &[Out]) -> Result<(), AllocError> {
        add_values(self.field, found, outs)
    }
}

/// The places of the fields that acts assign, each once.
#[derive(Drop)]
struct FieldsOf {}

impl Collector for FieldsOf {
    ghost items = { λ _ os. leaf_fields os };

    fn add(&self, found: &mut List<u64>, outs: &[Out]) -> Result<(), AllocError> {
        add_fields(found, outs)
    }
}

/// The values that acts of a diagram assign to a field, ascending.
pub(crate) fn assigned(st: &Store, f: Fid, d: Id) -> Result<Vec<u64>, AllocError>
    requires { IsId st.now d }
    ensures has { IfOk result (λ vs. HasValues f vs.items st.now d) }
    ensures sorted { IfOk result (λ vs. IsNonDecreasing vs.items) }
{
    let found = collect_all(st, &ValuesOf { field: f }, d)?;
    let mut values = found.into_vec();
    values.sort_unstable();
    Ok(values)
}

/// The places of the fields that acts of a diagram assign, each once.
pub(crate) fn assigned_fields(st: &Store, d: Id) -> Result<List<u64>, AllocError>
    requires { IsId st.now d }
    ensures { IfOk result (λ fs. AssignsAmong fs st.now d) }
{
    collect_all(st, &FieldsOf {}, d)
}

/// What is collected of all leaves of a diagram. Each node is visited once.
fn collect_all<C: Collector>(st: &Store, c: &C, d: Id) -> Result<List<u64>, AllocError>
    requires { IsId st.now d }
    ensures { IfOk result (λ xs. HasItems (C.items c.now) xs st.now d) }
{
    let mut seen = HashSet::new(st.alloc());
    let mut found = List::new(st.alloc());
    collect_new(st, c, &mut seen, &mut found, d)?;
    Ok(found)
}

/// Collects of the leaves of a diagram, unless that was done before.
#[cycle(collect)]
fn collect<C: Collector>(
    st: &Store,
    c: &C,
    seen: &mut HashSet<Id>,
    found: &mut List<u64>,
    d: Id,
) -> Result<(), AllocError>
    requires id { IsId st.now d }
    requires seen { AllHaveItems (C.items c.now) found.old st.now seen.old.keys }
    ensures more { AreAmong found.old found.new }
    ensures ok { OnOk result (HasItems (C.items c.now) found.new st.now d) }
    ensures seen { OnOk result (AllHaveItems (C.items c.now) found.new st.now seen.new.keys) }
{
    match st.view(d) {
        Node::Leaf(outs) => {
            if outs.len() < 2 {
                c.add(found, outs.as_slice())
            } else {
                collect_once(st, c, seen, found, d)
            }
        }
        Node::Case(_, _) => collect_once(st, c, seen, found, d),
    }
}

/// Collects of the leaves of a diagram, unless that was done before, which is kept.
#[cycle(collect)]
fn collect_once<C: Collector>(
    st: &Store,
    c: &C,
    seen: &mut HashSet<Id>,
    found: &mut List<u64>,
    d: Id,
) -> Result<(), AllocError>
    requires id { IsId st.now d }
    requires seen { AllHaveItems (C.items c.now) found.old st.now seen.old.keys }
    ensures more { AreAmong found.old found.new }
    ensures ok { OnOk result (HasItems (C.items c.now) found.new st.now d) }
    ensures seen { OnOk result (AllHaveItems (C.items c.now) found.new st.now seen.new.keys) }
{
    if seen.contains(&d) {
        return Ok(());
    }
    collect_new(st, c, seen, found, d)?;
    seen.insert(d)?;
    Ok(())
}

/// Collects of the leaves of a diagram.
#[cycle(collect)]
fn collect_new<C: Collector>(
    st: &Store,
    c: &C,
    seen: &mut HashSet<Id>,
    found: &mut List<u64>,
    d: Id,
) -> Result<(), AllocError>
    requires id { IsId st.now d }
    requires seen { AllHaveItems (C.items c.now) found.old st.now seen.old.keys }
    ensures more { AreAmong found.old found.new }
    ensures ok { OnOk result (HasItems (C.items c.now) found.new st.now d) }
    ensures seen { OnOk result (AllHaveItems (C.items c.now) found.new st.now seen.new.keys) }
{
    match st.view(d) {
        Node::Leaf(outs) => c.add(found, outs.as_slice()),
        Node::Case(_, parts) => {
            for part in parts.as_slice() {
                collect(st, c, seen, found, part.1)?;
            }
            Ok(())
        }
    }
}

/// Appends what the acts of a leaf assign to a field.
fn add_values(f: Fid, found: &mut List<u64>, outs: &[Out]) -> Result<(), AllocError>
    ensures more { AreAmong found.old found.new }
    ensures ok { OnOk result (found.new ≡ found.old ++ leaf_values f outs.now) }
{
    for o in outs {
        add_values_of(f, found, o.act.as_slice())?;
    }
    Ok(())
}

/// Appends what an act assigns to a field.
fn add_values_of(f: Fid, found: &mut List<u64>, sets: &[(Fid, u64)]) -> Result<(), AllocError>
    ensures more { AreAmong found.old found.new }
    ensures ok { OnOk result (found.new ≡ found.old ++ act_values f sets.now) }
{
    for s in sets {
        if s.0 == f {
            found.push(s.1)?;
        }
    }
    Ok(())
}

/// Appends the places of the fields that the acts of a leaf assign, where they are not there yet.
fn add_fields(found: &mut List<u64>, outs: &[Out]) -> Result<(), AllocError>
    ensures more { AreAmong found.old found.new }
    ensures ok { OnOk result (AreAmong (leaf_fields outs.now) found.new) }
{
    for o in outs {
        add_fields_of(found, o.act.as_slice())?;
    }
    Ok(())
}

/// Appends the places of the fields that an act assigns, where they are not there yet.
fn add_fields_of(found: &mut List<u64>, sets: &[(Fid, u64)]) -> Result<(), AllocError>
    ensures more { AreAmong found.old found.new }
    ensures ok { OnOk result (AreAmong (act_fields sets.now) found.new) }
{
    for s in sets {
        add_once(found, s.0.place() as u64)?;
    }
    Ok(())
}

/// Appends a number, where it is not there yet.
fn add_once(found: &mut List<u64>, n: u64) -> Result<(), AllocError>
    ensures more { AreAmong found.old found.new }
    ensures ok { OnOk result (Contains found.new n) }
{
    if is_among(found, n) {
        return Ok(());
    }
    found.push(n)
}

/// Whether a number is one of these.
pub(crate) fn is_among(all: &List<u64>, n: u64) -> bool
    ensures { result ≡ list_any (λ m. m == n) all.now }
{
    all.as_slice().iter().any(|m| *m == n)
}

/// Up to which value, from one on and at most the last, all are alike: the value alone where it is one of these, which
/// ascend, else those before the next one of these.
pub(crate) fn next_cut(values: &[u64], from: u64, last: u64) -> (u64, bool)
    requires sorted { IsNonDecreasing values.now }
    requires order { from ≤ last }
    ensures from { from ≤ result.0 }
    ensures last { result.0 ≤ last }
    ensures alone { result.1 ≡ true → result.0 ≡ from }
    ensures none { result.1 ≡ false → (v : ℕ) → Contains values.now v → from ≤ v → result.0 < v }
{
    let place = place_from(values, from);
    if place >= values.len() {
        return (last, false);
    }
    let v = values[place];
    if v > last {
        return (last, false);
    }
    if v == from {
        return (from, true);
    }
    (v - 1, false)
}

/// The place of the first of these values, which ascend, that is not below one.
fn place_from(values: &[u64], from: u64) -> usize
    requires sorted { IsNonDecreasing values.now }
    ensures below { (k e : ℕ) → k < length values.now → k < result
        → slice_index_or values.now k e < from }
    ensures on { result < length values.now → from ≤ slice_index_or values.now result 0 }
{
    values.partition_point(|v| *v < from)
}
