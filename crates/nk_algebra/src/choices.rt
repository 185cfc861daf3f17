//! A choice by a field between diagrams that test any fields.
ghost use Rattle.std.specs.Prelude.{◌≡◌, ℕ, ◌<◌, ◌≤◌, min, true, IfOk, OnOk, List as Items, slice_index};
ghost use Rattle.std.specs.Map.{lookup};
ghost use Rattle.nk_store.specs.Nodes.{child_at, Each};
ghost use Rattle.nk_store.specs.StoreState.{IsId, IsChild, IsWhole, look, root_field, Grows, HasLeaves, AreParts};
ghost use Rattle.nk_apply.specs.Cofactors.{cofactor};
ghost use Rattle.nk_algebra.specs.Choices.{AreChoices, first_of, IsCut, parts_eq, AreChosen};

use crate::halves::choose_all;
use nk_apply::{found_near, part_at, part_near, tested};
use nk_field::{Fid, List};
use nk_store::{Id, Node, Store, join_neighbours};
use std::alloc::AllocError;
use std::collections::HashMap;

/// Up to how many parts, or intervals of an earlier field, a choice is made by the values of earlier fields. Else it is made by
/// halves: parts that each test a value of their own would cost their square. Where no part tests an earlier field each is only
/// cut to its own values.
const FEW: usize = 64;

/// The diagram that gives a packet the leaf of the part that holds the field's value. The parts are pairs of an
/// interval's upper end and its diagram, which may test any fields; ends rise strictly to the field's largest value.
pub fn choose(st: &mut Store, f: Fid, parts: List<(u64, Id)>) -> Result<Id, AllocError>
    requires { AreChoices st.old f parts }
    ensures grows { Grows st.old st.new }
    ensures ok { IfOk result
        (λ d. HasLeaves st.new d (λ pk. look st.old (child_at 0 parts (slice_index pk f)) pk)) }
{
    if are_later(st, f, &parts) {
        return st.case(f, parts);
    }
    if parts.len() > FEW && !is_narrow(st, f, &parts) {
        return choose_all(st, f, &parts);
    }
    let kept = join_neighbours(st.alloc(), &parts)?;
    let mut seen = HashMap::new(st.alloc());
    choose_by(st, &mut seen, f, kept)
}

/// Whether the parts test no field before the choice's own, or the values of the least field that they test fall into few
/// intervals in which none of them changes.
fn is_narrow(st: &Store, f: Fid, parts: &List<(u64, Id)>) -> bool
    requires { AreChoices st.now f parts.now }
{
    let g = earliest(st, f, parts);
    if g == f {
        return true;
    }
    let max = st.max(g);
    let mut from = 0;
    for _ in 0..FEW {
        let end = unchanged_to(st, g, from, parts);
        if end >= max {
            return true;
        }
        from = end + 1;
    }
    false
}

/// Up to which value of a field no part changes, from a value on.
fn unchanged_to(st: &Store, g: Fid, v: u64, parts: &List<(u64, Id)>) -> u64
    requires field { g < 18 }
    requires within { v ≤ slice_index st.now.maxes g }
    requires ids { Each (IsId st.now) parts.now }
    requires first { Each (λ c. g ≤ root_field st.now c) parts.now }
    ensures { result ≤ slice_index st.now.maxes g }
{
    let mut least = st.max(g);
    for i in 0..parts.len() {
        let (until, _) = part_at(st, parts.at(i).1, g, v);
        least = least.min(until);
    }
    least
}

/// Whether all parts test later fields alone.
fn are_later(st: &Store, f: Fid, parts: &List<(u64, Id)>) -> bool
    requires field { f < 18 }
    requires ids { Each (IsId st.now) parts.now }
    ensures { result ≡ true → Each (IsChild st.now f) parts.now }
{
    for i in 0..parts.len() {
        if !is_later(st, f, parts.at(i).1) {
            return false;
        }
    }
    true
}

/// Whether a diagram tests later fields alone.
fn is_later(st: &Store, f: Fid, d: Id) -> bool
    requires field { f < 18 }
    requires id { IsId st.now d }
    ensures { result ≡ true → IsChild st.now f d }
{
    match st.view(d) {
        Node::Leaf(_) => true,
        Node::Case(g, _) => f < *g,
    }
}

/// The choice, by the first of its own field and those that the parts test. The table has the choices by its field that were
/// made by an earlier one.
#[cycle(choose)]
fn choose_by(
    st: &mut Store,
    seen: &mut HashMap<List<(u64, Id)>, Id>,
    f: Fid,
    parts: List<(u64, Id)>,
) -> Result<Id, AllocError>
    requires choices { AreChoices st.old f parts }
    requires seen { AreChosen st.old f seen.old.entries }
    ensures grows { Grows st.old st.new }
    ensures ok { IfOk result
        (λ d. HasLeaves st.new d (λ pk. look st.old (child_at 0 parts (slice_index pk f)) pk)) }
    ensures later { IfOk result (λ d. first_of st.old f parts ≤ root_field st.new d) }
    ensures seen { OnOk result (AreChosen st.new f seen.new.entries) }
{
    if parts.len() == 1 {
        return Ok(parts.at(0).1);
    }
    let g = earliest(st, f, &parts);
    if g < f {
        choose_once(st, seen, f, g, parts)
    } else {
        choose_here(st, f, &parts)
    }
}

/// The choice where parts test an earlier field first, which is looked up where it was made before.
#[cycle(choose)]
fn choose_once(
    st: &mut Store,
    seen: &mut HashMap<List<(u64, Id)>, Id>,
    f: Fid,
    g: Fid,
    parts: List<(u64, Id)>,
) -> Result<Id, AllocError>
    requires choices { AreChoices st.old f parts }
    requires first { g ≡ first_of st.old f parts }
    requires before { g < f }
    requires seen { AreChosen st.old f seen.old.entries }
    ensures grows { Grows st.old st.new }
    ensures ok { IfOk result
        (λ d. HasLeaves st.new d (λ pk. look st.old (child_at 0 parts (slice_index pk f)) pk)) }
    ensures later { IfOk result (λ d. g ≤ root_field st.new d) }
    ensures seen { OnOk result (AreChosen st.new f seen.new.entries) }
{
    if let Some(d) = known_choice(seen, &parts) {
        return Ok(d);
    }
    let d = choose_before(st, seen, f, g, &parts)?;
    seen.insert(parts, d)?;
    Ok(d)
}

/// What the table has for some parts.
fn known_choice(seen: &HashMap<List<(u64, Id)>, Id>, parts: &List<(u64, Id)>) -> Option<Id>
    ensures { result ≡ lookup (parts_eq parts.now) seen.now.entries }
{
    seen.get(parts).copied()
}

/// The field, or the least one before it that a part tests first.
fn earliest(st: &Store, f: Fid, parts: &List<(u64, Id)>) -> Fid
    requires field { f < 18 }
    requires ids { Each (IsId st.now) parts.now }
    ensures { result ≡ first_of st.now f parts.now }
{
    let mut first = f;
    for i in 0..parts.len() {
        first = earlier(st, first, parts.at(i).1);
    }
    first
}

/// The field, or the one before it that a diagram tests first.
fn earlier(st: &Store, f: Fid, d: Id) -> Fid
    requires field { f < 18 }
    requires id { IsId st.now d }
    ensures { result ≡ min f (root_field st.now d) }
{
    match tested(st, d) {
        None => f,
        Some(g) => if g < f { g } else { f },
    }
}

/// The choice where no part tests a field before the choice's own: each part is cut into those of its diagram.
fn choose_here(st: &mut Store, f: Fid, parts: &List<(u64, Id)>) -> Result<Id, AllocError>
    requires choices { AreChoices st.old f parts.now }
    requires first { Each (λ c. f ≤ root_field st.old c) parts.now }
    ensures grows { Grows st.old st.new }
    ensures ok { IfOk result
        (λ d. HasLeaves st.new d (λ pk. look st.old (child_at 0 parts.now (slice_index pk f)) pk)) }
    ensures later { IfOk result (λ d. f ≤ root_field st.new d) }
{
    st.laws();
    let pieces = finer(st, f, parts)?;
    st.case(f, pieces)
}

/// The parts of the choice where no part tests a field before the choice's own: of each diagram what it is at the values
/// of its part.
fn finer(st: &Store, f: Fid, parts: &List<(u64, Id)>) -> Result<List<(u64, Id)>, AllocError>
    requires choices { AreChoices st.now f parts.now }
    requires first { Each (λ c. f ≤ root_field st.now c) parts.now }
    ensures parts { IfOk result (λ ps. AreParts st.now f ps) }
    ensures ok { IfOk result
        (λ ps. (v : ℕ) (pk : Items ℕ) → IsWhole pk
        → look st.now (child_at 0 ps v) pk
        ≡ look st.now (cofactor st.now f v (child_at 0 parts.now v)) pk) }
{
    st.laws();
    let max = st.max(f);
    let mut pieces = List::new(st.alloc());
    let mut near = 0;
    let mut near_child = 0;
    let mut from = 0;
    loop {
        let (last, d) = found_near(parts.as_slice(), max, from, &mut near);
        let (until, child) = part_near(st, d, f, from, &mut near_child);
        let end = last.min(until);
        pieces.push((end, child))?;
        if end == max {
            return Ok(pieces);
        }
        from = end + 1;
    }
}

/// The choice where parts test an earlier field first: at each of its values the choice between what the parts are there.
#[cycle(choose)]
fn choose_before(
    st: &mut Store,
    seen: &mut HashMap<List<(u64, Id)>, Id>,
    f: Fid,
    g: Fid,
    parts: &List<(u64, Id)>,
) -> Result<Id, AllocError>
    requires choices { AreChoices st.old f parts.now }
    requires first { g ≡ first_of st.old f parts.now }
    requires before { g < f }
    requires seen { AreChosen st.old f seen.old.entries }
    ensures grows { Grows st.old st.new }
    ensures ok { IfOk result
        (λ d. HasLeaves st.new d (λ pk. look st.old (child_at 0 parts.now (slice_index pk f)) pk)) }
    ensures later { IfOk result (λ d. g ≤ root_field st.new d) }
    ensures seen { OnOk result (AreChosen st.new f seen.new.entries) }
{
    st.laws();
    let pieces = choose_parts(st, seen, f, g, parts)?;
    st.case(g, pieces)
}

/// The parts of the choice by an earlier field.
#[cycle(choose)]
fn choose_parts(
    st: &mut Store,
    seen: &mut HashMap<List<(u64, Id)>, Id>,
    f: Fid,
    g: Fid,
    parts: &List<(u64, Id)>,
) -> Result<List<(u64, Id)>, AllocError>
    requires choices { AreChoices st.old f parts.now }
    requires first { g ≡ first_of st.old f parts.now }
    requires before { g < f }
    requires seen { AreChosen st.old f seen.old.entries }
    ensures grows { Grows st.old st.new }
    ensures parts { IfOk result (λ ps. AreParts st.new g ps) }
    ensures ok { IfOk result
        (λ ps. (v : ℕ) (pk : Items ℕ) → IsWhole pk
        → look st.new (child_at 0 ps v) pk
        ≡ look st.old (cofactor st.old g v (child_at 0 parts.now (slice_index pk f))) pk) }
    ensures seen { OnOk result (AreChosen st.new f seen.new.entries) }
{
    st.laws();
    let max = st.max(g);
    let mut pieces = List::new(st.alloc());
    let mut from = 0;
    loop {
        let (end, cut) = cut_at(st, g, from, parts)?;
        let kept = join_neighbours(st.alloc(), &cut)?;
        let child = choose_by(st, seen, f, kept)?;
        pieces.push((end, child))?;
        if end == max {
            return Ok(pieces);
        }
        from = end + 1;
    }
}

/// What the parts are at a value of a field: up to which value, and which parts. None of them tests an earlier field.
fn cut_at(
    st: &Store,
    g: Fid,
    v: u64,
    parts: &List<(u64, Id)>,
) -> Result<(u64, List<(u64, Id)>), AllocError>
    requires field { g < 18 }
    requires within { v ≤ slice_index st.now.maxes g }
    requires ids { Each (IsId st.now) parts.now }
    requires first { Each (λ c. g ≤ root_field st.now c) parts.now }
    ensures { IfOk result (λ p. IsCut st.now g v parts.now p) }
{
    let mut end = st.max(g);
    let mut cut = List::new(st.alloc());
    for i in 0..parts.len() {
        let (last, d) = *parts.at(i);
        let (until, child) = part_at(st, d, g, v);
        end = end.min(until);
        cut.push((last, child))?;
    }
    Ok((end, cut))
}
