//! One diagram changed node by node.
ghost use Rattle.std.specs.Prelude.{◌≡◌, ℕ, ◌<◌, ◌≤◌, nat_eq, Some, IfOk, IfSome, OnOk, MatchOption, List as Items, slice_index};
ghost use Rattle.std.specs.Map.{lookup};
ghost use Rattle.nk_store.specs.declared.node.Out.{Out};
ghost use Rattle.nk_store.specs.Nodes.{child_at};
ghost use Rattle.nk_store.specs.StoreState.{IsId, look, root_field, Grows, HasLeaves, IsWhole, AreParts};
ghost use Rattle.nk_apply.specs.Cofactors.{cofactor, IsSplit};
ghost use Rattle.nk_apply.specs.MadeOf.{IsMadeOf, AreMadeOf};

use crate::memo::Memo;
use crate::part::{part_count, part_near};
use nk_field::{Fid, List};
use nk_store::{Id, Node, Store};
use std::alloc::AllocError;

/// A change of diagrams that keeps the fields before some place: what is made of a diagram at a packet comes from the
/// leaf that it has at a packet with the same values of those fields.
pub trait NodeMap {
    /// The packet whose leaf is taken.
    ghost taken: { Self → Items ℕ → Items ℕ };

    /// What is made of that leaf, by the largest values of the fields and the packet.
    ghost made: { Self → Items ℕ → Items ℕ → Items Out → Items Out };

    /// The place up to which fields are kept.
    ghost kept: { Self → ℕ };

    /// A place before which no field is tested of what is made, by the first field that the diagram tests.
    ghost first: { Self → ℕ → ℕ };

    ghost allowed: { Self → Items ℕ → Type 0 };

    /// The place up to which fields are kept, at most eighteen.
    fn place(&self) -> usize
        ensures is { result ≡ kept self.now }
        ensures few { result ≤ 18 };

    /// Whether a diagram that tests none of the kept fields is changed so quickly that keeping the answer costs more.
    fn is_quick(&self) -> bool;

    /// What holds at the fields that are kept; it does nothing.
    fn laws(&self)
        ensures same { (g : ℕ) (pk : Items ℕ) → g < kept self.now
            → slice_index (taken self.now pk) g ≡ slice_index pk g }
        ensures least { (t : ℕ) → first self.now t ≤ t }
        ensures following { (g t : ℕ) → g < kept self.now → g < t → g < first self.now t };

    /// What is made of a diagram that tests none of the fields that are kept.
    fn change(&self, st: &mut Store, d: Id) -> Result<Id, AllocError>
        requires id { IsId st.old d }
        requires allowed { allowed self.now st.old.maxes }
        requires past { kept self.now ≤ root_field st.old d }
        ensures grows { Grows st.old st.new }
        ensures ok { IfOk result
            (λ r. HasLeaves st.new r
            (λ pk. made self.now st.old.maxes pk (look st.old d (taken self.now pk)))) }
        ensures later { IfOk result
            (λ r. first self.now (root_field st.old d) ≤ root_field st.new r) };
}

/// What is made of a diagram. Each node is visited once; no table is made where it tests none of the kept fields. The only
/// error is that memory ran out.
pub fn map_nodes<M: NodeMap>(st: &mut Store, m: &M, d: Id) -> Result<Id, AllocError>
    requires id { IsId st.old d }
    requires allowed { M.allowed m.now st.old.maxes }
    ensures grows { Grows st.old st.new }
    ensures ok { IfOk result
        (λ r. HasLeaves st.new r
        (λ pk. M.made m.now st.old.maxes pk (look st.old d (M.taken m.now pk)))) }
    ensures later { IfOk result (λ r. M.first m.now (root_field st.old d) ≤ root_field st.new r) }
{
    match first_before(st, d, m.place()) {
        None => m.change(st, d),
        Some(g) => map_below(st, m, g, d),
    }
}

/// What is made of a diagram that tests a field which is kept. Each node is visited once.
fn map_below<M: NodeMap>(st: &mut Store, m: &M, g: Fid, d: Id) -> Result<Id, AllocError>
    requires id { IsId st.old d }
    requires field { g < 18 }
    requires before { g < M.kept m.now }
    requires first { root_field st.old d ≡ g }
    requires split { IsSplit st.old g d }
    requires allowed { M.allowed m.now st.old.maxes }
    ensures grows { Grows st.old st.new }
    ensures ok { IfOk result
        (λ r. HasLeaves st.new r
        (λ pk. M.made m.now st.old.maxes pk (look st.old d (M.taken m.now pk)))) }
    ensures later { IfOk result (λ r. M.first m.now (root_field st.old d) ≤ root_field st.new r) }
{
    let mut seen = Memo::new(st.alloc());
    walk_node(st, &mut seen, m, g, d)
}

/// What is made of a diagram, by whether it tests a field which is kept.
#[cycle(walk)]
fn walk_once<M: NodeMap>(
    st: &mut Store,
    seen: &mut Memo<Id>,
    m: &M,
    d: Id,
) -> Result<Id, AllocError>
    requires id { IsId st.old d }
    requires allowed { M.allowed m.now st.old.maxes }
    requires seen { AreMadeOf (M.taken m.now) (M.made m.now)
        (M.first m.now) st.old seen.old }
    ensures grows { Grows st.old st.new }
    ensures ok { IfOk result
        (λ r. HasLeaves st.new r
        (λ pk. M.made m.now st.old.maxes pk (look st.old d (M.taken m.now pk)))) }
    ensures later { IfOk result (λ r. M.first m.now (root_field st.old d) ≤ root_field st.new r) }
    ensures seen { OnOk result
        (AreMadeOf (M.taken m.now) (M.made m.now) (M.first m.now) st.new seen.new) }
{
    match first_before(st, d, m.place()) {
        None => walk_end(st, seen, m, d),
        Some(g) => walk_case(st, seen, m, g, d),
    }
}

/// The field that a diagram tests first, where it stands before a place.
fn first_before(st: &Store, d: Id, place: usize) -> Option<Fid>
    requires id { IsId st.now d }
    requires few { place ≤ 18 }
    ensures { MatchOption result (place ≤ root_field st.now d)
        (λ g. (g < place) × (root_field st.now d ≡ g) × IsSplit st.now g d) }
{
    match st.view(d) {
        Node::Case(g, _) => { if g.place() < place { Some(*g) } else { None } }
        Node::Leaf(_) => None,
    }
}

/// What is made of a diagram that tests none of the kept fields, which is looked up where it was made before.
fn walk_end<M: NodeMap>(st: &mut Store, seen: &mut Memo<Id>, m: &M, d: Id) -> Result<Id, AllocError>
    requires id { IsId st.old d }
    requires past { M.kept m.now ≤ root_field st.old d }
    requires allowed { M.allowed m.now st.old.maxes }
    requires seen { AreMadeOf (M.taken m.now) (M.made m.now)
        (M.first m.now) st.old seen.old }
    ensures grows { Grows st.old st.new }
    ensures ok { IfOk result
        (λ r. HasLeaves st.new r
        (λ pk. M.made m.now st.old.maxes pk (look st.old d (M.taken m.now pk)))) }
    ensures later { IfOk result (λ r. M.first m.now (root_field st.old d) ≤ root_field st.new r) }
    ensures seen { OnOk result
        (AreMadeOf (M.taken m.now) (M.made m.now) (M.first m.now) st.new seen.new) }
{
    if m.is_quick() {
        return m.change(st, d);
    }
    if let Some(r) = known(seen, d) {
        return Ok(r);
    }
    let r = m.change(st, d)?;
    seen.insert(d, r)?;
    Ok(r)
}

/// What was made of a diagram, if it was visited before.
pub fn known(seen: &Memo<Id>, d: Id) -> Option<Id>
    ensures { result ≡ lookup (nat_eq d) seen.now }
{
    seen.get(d).copied()
}

/// What is made of a diagram that tests a field which is kept, which is looked up where it was made before.
#[cycle(walk)]
fn walk_case<M: NodeMap>(
    st: &mut Store,
    seen: &mut Memo<Id>,
    m: &M,
    g: Fid,
    d: Id,
) -> Result<Id, AllocError>
    requires id { IsId st.old d }
    requires field { g < 18 }
    requires before { g < M.kept m.now }
    requires first { root_field st.old d ≡ g }
    requires split { IsSplit st.old g d }
    requires allowed { M.allowed m.now st.old.maxes }
    requires seen { AreMadeOf (M.taken m.now) (M.made m.now)
        (M.first m.now) st.old seen.old }
    ensures grows { Grows st.old st.new }
    ensures ok { IfOk result
        (λ r. HasLeaves st.new r
        (λ pk. M.made m.now st.old.maxes pk (look st.old d (M.taken m.now pk)))) }
    ensures later { IfOk result (λ r. M.first m.now (root_field st.old d) ≤ root_field st.new r) }
    ensures seen { OnOk result
        (AreMadeOf (M.taken m.now) (M.made m.now) (M.first m.now) st.new seen.new) }
{
    if let Some(r) = known(seen, d) {
        return Ok(r);
    }
    let r = walk_node(st, seen, m, g, d)?;
    seen.insert(d, r)?;
    Ok(r)
}

/// What is made of a diagram that tests a field which is kept, made anew.
#[cycle(walk)]
fn walk_node<M: NodeMap>(
    st: &mut Store,
    seen: &mut Memo<Id>,
    m: &M,
    g: Fid,
    d: Id,
) -> Result<Id, AllocError>
    requires id { IsId st.old d }
    requires field { g < 18 }
    requires before { g < M.kept m.now }
    requires first { root_field st.old d ≡ g }
    requires split { IsSplit st.old g d }
    requires allowed { M.allowed m.now st.old.maxes }
    requires seen { AreMadeOf (M.taken m.now) (M.made m.now)
        (M.first m.now) st.old seen.old }
    ensures grows { Grows st.old st.new }
    ensures ok { IfOk result
        (λ r. HasLeaves st.new r
        (λ pk. M.made m.now st.old.maxes pk (look st.old d (M.taken m.now pk)))) }
    ensures later { IfOk result (λ r. M.first m.now (root_field st.old d) ≤ root_field st.new r) }
    ensures seen { OnOk result
        (AreMadeOf (M.taken m.now) (M.made m.now) (M.first m.now) st.new seen.new) }
{
    m.laws();
    let parts = walk_parts(st, seen, m, g, d)?;
    st.case(g, parts)
}

/// The parts of what is made of a diagram, by its first field.
#[cycle(walk)]
fn walk_parts<M: NodeMap>(
    st: &mut Store,
    seen: &mut Memo<Id>,
    m: &M,
    g: Fid,
    d: Id,
) -> Result<List<(u64, Id)>, AllocError>
    requires id { IsId st.old d }
    requires field { g < 18 }
    requires before { g < M.kept m.now }
    requires first { root_field st.old d ≡ g }
    requires split { IsSplit st.old g d }
    requires allowed { M.allowed m.now st.old.maxes }
    requires seen { AreMadeOf (M.taken m.now) (M.made m.now)
        (M.first m.now) st.old seen.old }
    ensures grows { Grows st.old st.new }
    ensures parts { IfOk result (λ ps. AreParts st.new g ps) }
    ensures ok { IfOk result
        (λ ps. (v : ℕ) (pk : Items ℕ) → IsWhole pk
        → look st.new (child_at 0 ps v) pk
        ≡ M.made m.now st.old.maxes pk (look st.old (cofactor st.old g v d) (M.taken m.now pk))) }
    ensures seen { OnOk result
        (AreMadeOf (M.taken m.now) (M.made m.now) (M.first m.now) st.new seen.new) }
{
    m.laws();
    let max = st.max(g);
    let mut parts = List::with_capacity(st.alloc(), part_count(st, d, g))?;
    let mut near = 0;
    let mut from = 0;
    let mut before = None;
    let mut last = None;
    loop {
        let (end, child) = part_near(st, d, g, from, &mut near);
        let to = walk_part(st, seen, m, before, child)?;
        parts.push((end, to))?;
        if end == max {
            return Ok(parts);
        }
        before = last;
        last = Some((child, to));
        from = end + 1;
    }
}

/// What is made of a part, by what was made of the part two places before, where that was the same diagram: between intervals of a
/// table stands nothing, again and again. A look into the table of what was made takes some 300 instructions.
#[cycle(walk)]
fn walk_part<M: NodeMap>(
    st: &mut Store,
    seen: &mut Memo<Id>,
    m: &M,
    before: Option<(Id, Id)>,
    d: Id,
) -> Result<Id, AllocError>
    requires id { IsId st.old d }
    requires allowed { M.allowed m.now st.old.maxes }
    requires before { IfSome before
        (λ x. IsMadeOf (M.taken m.now) (M.made m.now) (M.first m.now) st.old x.0 x.1) }
    requires seen { AreMadeOf (M.taken m.now) (M.made m.now)
        (M.first m.now) st.old seen.old }
    ensures grows { Grows st.old st.new }
    ensures ok { IfOk result
        (λ r. HasLeaves st.new r
        (λ pk. M.made m.now st.old.maxes pk (look st.old d (M.taken m.now pk)))) }
    ensures later { IfOk result (λ r. M.first m.now (root_field st.old d) ≤ root_field st.new r) }
    ensures seen { OnOk result
        (AreMadeOf (M.taken m.now) (M.made m.now) (M.first m.now) st.new seen.new) }
{
    if let Some(r) = made_before(before, d) {
        return Ok(r);
    }
    walk_once(st, seen, m, d)
}

/// What was made of a diagram, if the pair is a diagram's that is this one.
fn made_before(before: Option<(Id, Id)>, d: Id) -> Option<Id>
    ensures { IfSome result (λ r. before ≡ Some (d, r)) }
{
    match before {
        Some(pair) => made_by(pair, d),
        None => None,
    }
}

/// What was made of the diagram, if this pair is the diagram's.
fn made_by(pair: (Id, Id), d: Id) -> Option<Id>
    ensures { IfSome result (λ r. pair ≡ (d, r)) }
{
    if pair.0 == d { Some(pair.1) } else { None }
}
