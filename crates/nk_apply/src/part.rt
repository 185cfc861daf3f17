//! A diagram at one value of its first field.
ghost use Rattle.std.specs.Prelude.{◌≡◌, ℕ, ◌<◌, ◌≤◌, length, true, MatchOption, slice_index, slice_index_or};
ghost use Rattle.nk_store.specs.Nodes.{Rises};
ghost use Rattle.nk_store.specs.StoreState.{IsId, root_field};
ghost use Rattle.nk_apply.specs.Cofactors.{found_in, IsPart, IsSplit};

use nk_field::Fid;
use nk_store::{Id, Node, Store};

/// The field that a diagram tests first; `None` for a leaf.
pub fn tested(st: &Store, a: Id) -> Option<Fid>
    requires { IsId st.now a }
    ensures { MatchOption result (root_field st.now a ≡ 18)
        (λ f. (f < 18) × (root_field st.now a ≡ f) × IsSplit st.now f a) }
{
    match st.view(a) {
        Node::Leaf(_) => None,
        Node::Case(f, _) => Some(*f),
    }
}

/// Which diagram it is at a value of the field, and up to which value that stays so: the last such value, then the
/// diagram.
pub fn part_at(st: &Store, d: Id, f: Fid, v: u64) -> (u64, Id)
    requires id { IsId st.now d }
    requires first { f ≤ root_field st.now d }
    requires field { f < 18 }
    requires within { v ≤ slice_index st.now.maxes f }
    ensures { IsPart st.now f d v result }
{
    let mut near = 0;
    part_near(st, d, f, v, &mut near)
}

/// Which diagram it is at a value of the field, and up to which value that stays so: the last such value, then the diagram. The
/// search begins at the index `near` among the parts and sets `near` to the index that it found, so values that rise are found in
/// few steps. No clause speaks of that index.
pub fn part_near(st: &Store, d: Id, f: Fid, v: u64, near: &mut usize) -> (u64, Id)
    requires id { IsId st.now d }
    requires first { f ≤ root_field st.now d }
    requires field { f < 18 }
    requires within { v ≤ slice_index st.now.maxes f }
    ensures { IsPart st.now f d v result }
{
    let max = st.max(f);
    match st.view(d) {
        Node::Case(g, parts) => {
            if *g == f {
                found_near(parts.as_slice(), max, v, near)
            } else {
                (max, d)
            }
        }
        Node::Leaf(_) => (max, d),
    }
}

/// The first part whose end is not below the value. It is looked for at the index `near` first, which becomes the part's own
/// index; no clause speaks of that index.
pub fn found_near(parts: &[(u64, Id)], max: u64, v: u64, near: &mut usize) -> (u64, Id)
    requires rise { Rises max 0 parts.now }
    requires within { v ≤ max }
    ensures found { result ≡ found_in (0, 0) parts.now v }
    ensures from { v ≤ result.0 }
    ensures within { result.0 ≤ max }
{
    let place = place_near(parts, max, v, *near);
    *near = place;
    parts[place]
}

/// The index of the first part whose end is not below the value, of parts whose ends rise to the highest value: looked for
/// at the index `near`, then after it, then everywhere.
fn place_near(parts: &[(u64, Id)], max: u64, v: u64, near: usize) -> usize
    requires rise { Rises max 0 parts.now }
    requires within { v ≤ max }
    ensures within { result < length parts.now }
    ensures found { (e : ℕ × ℕ) → slice_index_or parts.now result e ≡ found_in (0, 0) parts.now v }
{
    if is_place(parts, max, v, near) {
        return near;
    }
    if near < parts.len() && is_place(parts, max, v, near + 1) {
        return near + 1;
    }
    place_of(parts, max, v)
}

/// Whether the part at this index is that one: its end is not below the value, and the one before it is.
fn is_place(parts: &[(u64, Id)], max: u64, v: u64, place: usize) -> bool
    requires rise { Rises max 0 parts.now }
    ensures within { result ≡ true → place < length parts.now }
    ensures found { result ≡ true → (e : ℕ × ℕ)
        → slice_index_or parts.now place e ≡ found_in (0, 0) parts.now v }
{
    if place >= parts.len() || parts[place].0 < v {
        return false;
    }
    if place == 0 {
        return true;
    }
    let before = place - 1;
    parts[before].0 < v
}

/// The index of that part.
fn place_of(parts: &[(u64, Id)], max: u64, v: u64) -> usize
    requires rise { Rises max 0 parts.now }
    requires within { v ≤ max }
    ensures within { result < length parts.now }
    ensures found { (e : ℕ × ℕ) → slice_index_or parts.now result e ≡ found_in (0, 0) parts.now v }
{
    parts.partition_point(|part| part.0 < v)
}

/// How many parts a diagram has by a field: 1 where it doesn't test it first.
pub fn part_count(st: &Store, d: Id, f: Fid) -> usize
    requires { IsId st.now d }
{
    match st.view(d) {
        Node::Case(g, parts) => { if *g == f { parts.len() } else { 1 } }
        Node::Leaf(_) => 1,
    }
}
