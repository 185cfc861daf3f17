//! One diagram, then another one, where the first or both have many parts by some field. At the first field that they test, outs that
//! assign it go on with the second diagram at one value. The others go on with what it is at the packet's own value, and with no more
//! of it.
ghost use Rattle.std.specs.Prelude.{◌≡◌, ℕ, ◌<◌, ◌≤◌, ◌++◌, min, true, false, List as Items, IfOk, IfSome, OnOk, MatchOption};
ghost use Rattle.std.specs.List.{flat_map};
ghost use Rattle.nk_store.specs.Nodes.{child_at, Each};
ghost use Rattle.nk_store.specs.StoreState.{IsId, IsWhole, look, root_field, Grows, HasLeaves};
ghost use Rattle.nk_algebra.specs.Partition.{assigns, last_value, ends_between, passed, partition, partition_on_field, Keep};
ghost use Rattle.nk_algebra.specs.Kinds.{is_of};
ghost use Rattle.nk_algebra.specs.Choices.{AreChoices};
ghost use Rattle.nk_apply.specs.Seqs.{seq_leaf};
ghost use Rattle.nk_apply.specs.Cofactors.{cofactor};

use crate::choices::choose;
use crate::seqs::{sequence, sequence_anew};
use nk_apply::{LeafMap, map_leaves, part_at, part_near, tested, union_later};
use nk_field::{Act, Fid, List, PLACES};
use nk_store::{Id, Node, Out, Store};
use std::alloc::{AllocError, Global};

/// Nodes with more parts than this have outs taken apart: few parts are no trouble, and taking apart takes a walk.
const MANY: usize = 64;

/// How far below the first node a node with many parts is looked for: after a few switches, say, and their ports.
const STEPS: u64 = 2;

/// How many values outs go on at are put through each by itself, at most.
const TURNS: u64 = 64;

/// What tells outs of one kind from the others.
#[derive(Clone, Copy)]
pub enum Kind {
    /// They assign this field.
    Assigning(Fid),
    /// They assign this field, at last a value from the first of these to the second.
    Ending(Fid, u64, u64),
}

/// The outs of a leaf that are of one kind, or the others.
#[derive(Drop)]
struct Partition {
    kind: Kind,
    chosen: bool,
}

impl LeafMap for Partition {
    ghost mapped = { λ s os. partition (is_of s.kind) s.chosen os };

    ghost allowed = { λ _ _. Unit {0} };

    fn map(&self, alloc: Global, outs: &[Out]) -> Result<List<Out>, AllocError> {
        outs_partition(alloc, &self.kind, self.chosen, outs)
    }
}

/// The outs of one kind, or the others, in their order.
fn outs_partition(
    alloc: Global,
    kind: &Kind,
    chosen: bool,
    outs: &[Out],
) -> Result<List<Out>, AllocError>
    ensures { IfOk result (λ r. r ≡ flat_map (passed (is_of kind.now) chosen) outs.now) }
{
    let mut all = List::new(alloc);
    for o in outs {
        push_apart(&mut all, kind, chosen, o)?;
    }
    Ok(all)
}

/// Appends an out whose act is of the kind, if `chosen` is true, and one whose act isn't, if `chosen` is false; else nothing.
fn push_apart(all: &mut List<Out>, kind: &Kind, chosen: bool, o: &Out) -> Result<(), AllocError>
    ensures { OnOk result (all.new ≡ all.old ++ passed (is_of kind.now) chosen o.now) }
{
    if is_of_kind(&o.act, kind) != chosen {
        return Ok(());
    }
    all.push(Out {
        act: o.act.copy()?,
        target: o.target,
    })
}

/// Whether an act is of a kind.
fn is_of_kind(act: &Act, kind: &Kind) -> bool
    ensures { result ≡ is_of kind.now act.now }
{
    match kind {
        Kind::Assigning(f) => sets(act, *f),
        Kind::Ending(f, lo, hi) => ends_between(act, *f, *lo, *hi),
    }
}

/// Whether an act assigns a field, at last a value from the first to the second.
fn ends_between(act: &Act, f: Fid, lo: u64, hi: u64) -> bool
    ensures { result ≡ ends_between f lo hi act.now }
{
    match last_value(act, f) {
        Some(n) => lo <= n && n <= hi,
        None => false,
    }
}

/// The last value that an act assigns to a field.
fn last_value(act: &Act, f: Fid) -> Option<u64>
    ensures { MatchOption result (assigns f act.now ≡ false)
        (λ n. (assigns f act.now ≡ true) × (last_value f act.now ≡ n)) }
{
    let pairs = act.as_slice();
    let mut i = pairs.len();
    while i > 0 {
        i -= 1;
        if pairs[i].0 == f {
            return Some(pairs[i].1);
        }
    }
    None
}

/// Whether an act assigns a field.
fn sets(act: &Act, f: Fid) -> bool
    ensures { result ≡ assigns f act.now }
{
    let pairs = act.as_slice();
    for i in 0..pairs.len() {
        if pairs[i].0 == f {
            return true;
        }
    }
    false
}

/// Whether a node of a diagram has many parts by its field: the first one, or one a few steps below it. It tells which way of putting
/// two such diagrams in sequence is quick, and no more.
fn is_wide(st: &Store, d: Id) -> bool
    requires { IsId st.now d }
{
    has_many(st, d, STEPS)
}

/// Whether a node of a diagram has many parts by its field: the first node, or one that is so many steps below it at most.
#[cycle(has_many)]
fn has_many(st: &Store, d: Id, steps: u64) -> bool
    requires { IsId st.now d }
{
    match st.view(d) {
        Node::Leaf(_) => false,
        Node::Case(_, parts) => parts.len() > MANY || some_has_many(st, parts.as_slice(), steps),
    }
}

/// Whether one of these parts leads to a diagram that `has_many` finds wide with one step less. Where no step is left, none
/// does.
#[cycle(has_many)]
fn some_has_many(st: &Store, parts: &[(u64, Id)], steps: u64) -> bool
    requires { Each (IsId st.now) parts.now }
{
    if steps == 0 {
        return false;
    }
    for i in 0..parts.len() {
        if has_many(st, parts[i].1, steps - 1) {
            return true;
        }
    }
    false
}

/// Whether some out of a diagram may leave its first field as it is: one of a part that is a leaf, or any of another part.
fn may_keep(st: &Store, a: Id) -> bool
    requires { IsId st.now a }
{
    match st.view(a) {
        Node::Leaf(_) => false,
        Node::Case(f, parts) => some_keeps(st, *f, parts.as_slice()),
    }
}

/// Whether some out of one of these parts may leave the field as it is.
fn some_keeps(st: &Store, f: Fid, parts: &[(u64, Id)]) -> bool
    requires { Each (IsId st.now) parts.now }
{
    for i in 0..parts.len() {
        if part_keeps(st, f, parts[i].1) {
            return true;
        }
    }
    false
}

/// Whether some out of a part's diagram may leave the field as it is. The outs of a leaf are looked at; any other diagram may
/// have one.
fn part_keeps(st: &Store, f: Fid, d: Id) -> bool
    requires { IsId st.now d }
{
    match st.view(d) {
        Node::Leaf(outs) => one_keeps(outs.as_slice(), f),
        Node::Case(_, _) => true,
    }
}

/// Whether some out leaves the field as it is.
fn one_keeps(outs: &[Out], f: Fid) -> bool {
    for o in outs {
        if !sets(&o.act, f) {
            return true;
        }
    }
    false
}

/// The first field that one of the diagrams tests, where outs are to be taken apart by it. The first diagram has many parts by some
/// field, and an out may keep its first field. And the second one has many parts too, or the first out that is found keeps the field
/// that is asked for: n ranges of destinations at each of m switches, in front of a diagram that tests the switch, then meet m
/// parts of that one, and not m times m.
fn wide_field(st: &Store, a: Id, b: Id) -> Option<Fid>
    requires left { IsId st.now a }
    requires right { IsId st.now b }
    ensures { IfSome result (λ f. (f < 18) × (f ≡ min (root_field st.now a) (root_field st.now b))
        × (f ≤ root_field st.now a) × (f ≤ root_field st.now b)) }
{
    if !is_wide(st, a) || !may_keep(st, a) {
        return None;
    }
    let f = match (tested(st, a), tested(st, b)) {
        (Some(f), Some(g)) => if f < g { f } else { g },
        _ => return None,
    };
    if is_wide(st, b) || begins_kept(st, a, f) {
        Some(f)
    } else {
        None
    }
}

/// Whether the first out that is found a few steps below the first node leaves a field as it is.
fn begins_kept(st: &Store, a: Id, f: Fid) -> bool
    requires { IsId st.now a }
{
    match first_keeps(st, a, f, PLACES as u64) {
        Some(keeps) => keeps,
        None => false,
    }
}

/// Whether the first out of a diagram leaves a field as it is, if one is found so many steps below the first node at most.
#[cycle(first_keeps)]
fn first_keeps(st: &Store, d: Id, f: Fid, steps: u64) -> Option<bool>
    requires { IsId st.now d }
{
    match st.view(d) {
        Node::Leaf(outs) => match outs.as_slice().first() {
            Some(o) => Some(!sets(&o.act, f)),
            None => None,
        },
        Node::Case(_, parts) => keeps_below(st, parts.as_slice(), f, steps),
    }
}

/// Whether the first out of these parts leaves the field as it is, if one is found in the steps that are left.
#[cycle(first_keeps)]
fn keeps_below(st: &Store, parts: &[(u64, Id)], f: Fid, steps: u64) -> Option<bool>
    requires { Each (IsId st.now) parts.now }
{
    if steps == 0 {
        return None;
    }
    for i in 0..parts.len() {
        if let Some(keeps) = first_keeps(st, parts[i].1, f, steps - 1) {
            return Some(keeps);
        }
    }
    None
}

/// The sequence, where no answer is kept of these two.
pub(crate) fn seq_anew(st: &mut Store, a: Id, b: Id) -> Result<Id, AllocError>
    requires left { IsId st.old a }
    requires right { IsId st.old b }
    ensures grows { Grows st.old st.new }
    ensures ok { IfOk result
        (λ d. HasLeaves st.new d (λ pk. seq_leaf (look st.old a pk) (look st.old b) pk)) }
{
    match wide_field(st, a, b) {
        None => sequence_anew(st, a, b),
        Some(f) => seq_partition(st, f, a, b),
    }
}

/// The sequence, by its leaves.
#[cycle(partition_diagram)]
fn seq_leaves(st: &mut Store, a: Id, b: Id) -> Result<Id, AllocError>
    requires left { IsId st.old a }
    requires right { IsId st.old b }
    ensures grows { Grows st.old st.new }
    ensures ok { IfOk result
        (λ d. HasLeaves st.new d (λ pk. seq_leaf (look st.old a pk) (look st.old b) pk)) }
{
    match wide_field(st, a, b) {
        None => sequence(st, a, b),
        Some(f) => seq_partition(st, f, a, b),
    }
}

/// The sequence, outs that assign the field apart from the others. Where none assigns it, what keeps it is the first diagram itself,
/// and no outs that assign it are looked for: that saves one of two walks over the first diagram.
#[cycle(partition_diagram)]
fn seq_partition(st: &mut Store, f: Fid, a: Id, b: Id) -> Result<Id, AllocError>
    requires left { IsId st.old a }
    requires right { IsId st.old b }
    requires field { f < 18 }
    requires first { f ≤ root_field st.old a }
    requires second { f ≤ root_field st.old b }
    ensures grows { Grows st.old st.new }
    ensures ok { IfOk result
        (λ d. HasLeaves st.new d (λ pk. seq_leaf (look st.old a pk) (look st.old b) pk)) }
{
    let kept = keeping(st, f, a)?;
    let right = seq_kept(st, f, kept, b)?;
    if kept == a {
        return Ok(right);
    }
    let left = seq_moved(st, f, a, b)?;
    union_later(st, left, right)
}

/// The outs that leave the field as it is.
fn keeping(st: &mut Store, f: Fid, a: Id) -> Result<Id, AllocError>
    requires { IsId st.old a }
    ensures grows { Grows st.old st.new }
    ensures ok { IfOk result
        (λ d. HasLeaves st.new d (λ pk. partition_on_field f false (look st.old a pk))) }
    ensures later { IfOk result (λ d. root_field st.old a ≤ root_field st.new d) }
    ensures keep { IfOk result (λ d. (pk : Items ℕ) → IsWhole pk → Keep f (look st.new d pk)) }
{
    let outs = Partition {
        kind: Kind::Assigning(f),
        chosen: false,
    };
    map_leaves(st, &outs, a)
}

/// The sequence of the outs that assign the field.
#[cycle(partition_diagram)]
fn seq_moved(st: &mut Store, f: Fid, a: Id, b: Id) -> Result<Id, AllocError>
    requires left { IsId st.old a }
    requires right { IsId st.old b }
    requires field { f < 18 }
    requires first { f ≤ root_field st.old a }
    requires second { f ≤ root_field st.old b }
    ensures grows { Grows st.old st.new }
    ensures ok { IfOk result
        (λ d. HasLeaves st.new d
        (λ pk. seq_leaf (partition_on_field f true (look st.old a pk)) (look st.old b) pk)) }
{
    let outs = Partition {
        kind: Kind::Assigning(f),
        chosen: true,
    };
    let moved = map_leaves(st, &outs, a)?;
    st.laws();
    let parts = moved_parts(st, f, moved, b)?;
    choose(st, f, parts)
}

/// Its parts by the field. What an out makes of the field says at which value the second diagram goes on.
#[cycle(partition_diagram)]
fn moved_parts(st: &mut Store, f: Fid, a: Id, b: Id) -> Result<List<(u64, Id)>, AllocError>
    requires left { IsId st.old a }
    requires right { IsId st.old b }
    requires field { f < 18 }
    requires first { f ≤ root_field st.old a }
    requires second { f ≤ root_field st.old b }
    ensures grows { Grows st.old st.new }
    ensures parts { IfOk result (λ ps. AreChoices st.new f ps) }
    ensures ok { IfOk result
        (λ ps. (v : ℕ) (pk : Items ℕ) → IsWhole pk
        → look st.new (child_at 0 ps v) pk
        ≡ seq_leaf (look st.old (cofactor st.old f v a) pk) (look st.old b) pk) }
{
    st.laws();
    let max = st.max(f);
    let mut parts = List::new(st.alloc());
    let mut near = 0;
    let mut from = 0;
    loop {
        let (end, child) = part_near(st, a, f, from, &mut near);
        let made = seq_to_values(st, f, child, b)?;
        parts.push((end, made))?;
        if end == max {
            return Ok(parts);
        }
        from = end + 1;
    }
}

/// The sequence of a diagram that doesn't test the field. Where both have many parts, what goes on at one value of the field is put
/// through by itself, a few times.
#[cycle(partition_diagram)]
fn seq_to_values(st: &mut Store, f: Fid, a: Id, b: Id) -> Result<Id, AllocError>
    requires left { IsId st.old a }
    requires right { IsId st.old b }
    requires field { f < 18 }
    requires first { f < root_field st.old a }
    requires second { f ≤ root_field st.old b }
    ensures grows { Grows st.old st.new }
    ensures ok { IfOk result
        (λ d. HasLeaves st.new d (λ pk. seq_leaf (look st.old a pk) (look st.old b) pk)) }
{
    if is_wide(st, a) && is_wide(st, b) {
        seq_by_values(st, f, a, b, TURNS)
    } else {
        sequence(st, a, b)
    }
}

/// The sequence of a diagram that doesn't test the field. What goes on at one value of the field is put through by itself, at
/// most as often as turns are left.
#[cycle(partition_diagram)]
fn seq_by_values(st: &mut Store, f: Fid, a: Id, b: Id, turns: u64) -> Result<Id, AllocError>
    requires left { IsId st.old a }
    requires right { IsId st.old b }
    requires field { f < 18 }
    requires first { f < root_field st.old a }
    requires second { f ≤ root_field st.old b }
    requires few { turns ≤ 64 }
    ensures grows { Grows st.old st.new }
    ensures ok { IfOk result
        (λ d. HasLeaves st.new d (λ pk. seq_leaf (look st.old a pk) (look st.old b) pk)) }
{
    if turns == 0 {
        return sequence(st, a, b);
    }
    match value_in(st, a, f, PLACES as u64) {
        None => sequence(st, a, b),
        Some(n) => seq_at_value(st, f, n, a, b, turns - 1),
    }
}

/// The sequence of a diagram that doesn't test the field. What goes on at this value of the field, or at a later value of the
/// same part, is put through by itself; the others follow.
#[cycle(partition_diagram)]
fn seq_at_value(st: &mut Store, f: Fid, n: u64, a: Id, b: Id, turns: u64) -> Result<Id, AllocError>
    requires left { IsId st.old a }
    requires right { IsId st.old b }
    requires field { f < 18 }
    requires first { f < root_field st.old a }
    requires second { f ≤ root_field st.old b }
    requires few { turns < 64 }
    ensures grows { Grows st.old st.new }
    ensures ok { IfOk result
        (λ d. HasLeaves st.new d (λ pk. seq_leaf (look st.old a pk) (look st.old b) pk)) }
{
    st.laws();
    let from = n.min(st.max(f));
    let (end, child) = part_at(st, b, f, from);
    let here = ending(st, f, (from, end), true, a)?;
    let one = seq_leaves(st, here, child)?;
    let rest = ending(st, f, (from, end), false, a)?;
    let others = seq_by_values(st, f, rest, b, turns)?;
    union_later(st, one, others)
}

/// The outs that assign the field, at last a value from the first to the second, or the others.
fn ending(st: &mut Store, f: Fid, values: (u64, u64), chosen: bool, a: Id) -> Result<Id, AllocError>
    requires { IsId st.old a }
    ensures grows { Grows st.old st.new }
    ensures ok { IfOk result
        (λ d. HasLeaves st.new d
        (λ pk. partition (ends_between f values.0 values.1) chosen (look st.old a pk))) }
    ensures later { IfOk result (λ d. root_field st.old a ≤ root_field st.new d) }
{
    let outs = Partition {
        kind: Kind::Ending(f, values.0, values.1),
        chosen,
    };
    map_leaves(st, &outs, a)
}

/// A value that an out of a diagram assigns to a field at last, if one is found so many steps below the first node at most.
#[cycle(value_in)]
fn value_in(st: &Store, d: Id, f: Fid, steps: u64) -> Option<u64>
    requires { IsId st.now d }
{
    match st.view(d) {
        Node::Leaf(outs) => match outs.as_slice().first() {
            Some(o) => last_value(&o.act, f),
            None => None,
        },
        Node::Case(_, parts) => value_below(st, parts.as_slice(), f, steps),
    }
}

/// A value that an out of these parts assigns to the field at last, if one is found in the steps that are left.
#[cycle(value_in)]
fn value_below(st: &Store, parts: &[(u64, Id)], f: Fid, steps: u64) -> Option<u64>
    requires { Each (IsId st.now) parts.now }
{
    if steps == 0 {
        return None;
    }
    for i in 0..parts.len() {
        if let Some(n) = value_in(st, parts[i].1, f, steps - 1) {
            return Some(n);
        }
    }
    None
}

/// The sequence where no out assigns the field: at each of its values what both diagrams are there.
#[cycle(partition_diagram)]
fn seq_kept(st: &mut Store, f: Fid, a: Id, b: Id) -> Result<Id, AllocError>
    requires left { IsId st.old a }
    requires right { IsId st.old b }
    requires field { f < 18 }
    requires first { f ≤ root_field st.old a }
    requires second { f ≤ root_field st.old b }
    requires keep { (pk : Items ℕ) → IsWhole pk → Keep f (look st.old a pk) }
    ensures grows { Grows st.old st.new }
    ensures ok { IfOk result
        (λ d. HasLeaves st.new d (λ pk. seq_leaf (look st.old a pk) (look st.old b) pk)) }
{
    st.laws();
    let parts = kept_parts(st, f, a, b)?;
    choose(st, f, parts)
}

/// The parts of that sequence by the field.
#[cycle(partition_diagram)]
fn kept_parts(st: &mut Store, f: Fid, a: Id, b: Id) -> Result<List<(u64, Id)>, AllocError>
    requires left { IsId st.old a }
    requires right { IsId st.old b }
    requires field { f < 18 }
    requires first { f ≤ root_field st.old a }
    requires second { f ≤ root_field st.old b }
    ensures grows { Grows st.old st.new }
    ensures parts { IfOk result (λ ps. AreChoices st.new f ps) }
    ensures ok { IfOk result
        (λ ps. (v : ℕ) (pk : Items ℕ) → IsWhole pk
        → look st.new (child_at 0 ps v) pk
        ≡ seq_leaf (look st.old (cofactor st.old f v a) pk)
        (look st.old (cofactor st.old f v b)) pk) }
{
    st.laws();
    let max = st.max(f);
    let mut parts = List::new(st.alloc());
    let mut near_a = 0;
    let mut near_b = 0;
    let mut from = 0;
    loop {
        let (end_a, child_a) = part_near(st, a, f, from, &mut near_a);
        let (end_b, child_b) = part_near(st, b, f, from, &mut near_b);
        let end = end_a.min(end_b);
        let made = seq_leaves(st, child_a, child_b)?;
        parts.push((end, made))?;
        if end == max {
            return Ok(parts);
        }
        from = end + 1;
    }
}
