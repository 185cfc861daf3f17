//! The transitions into each set of labels, by the packets that they make.
ghost use Rattle.std.specs.Prelude.{◌≡◌, ◌+◌, ◌<◌, ◌⊎◌, ◌↔◌, ◌^◌, [], ◌∷◌, ℕ, nat_eq, IfOk, IfSome, OnOk, None, length, IsPermutation, Contains};
ghost use Rattle.std.specs.Map.{lookup};
ghost use Rattle.nk_store.specs.StoreState.{IsId, Grows, HasLeaves};
ghost use Rattle.nk_sets.specs.PacketSets.{IsSet};
ghost use Rattle.nk_sets.specs.Outs.{SuitsStore};
ghost use Rattle.nk_backward.specs.Transitions.{OutsSuitStore};
ghost use Rattle.nk_backward.specs.Predecessors.{ArePlacesBelow, place_at, transition_out, diagram_at, HaveDiagrams, FindDiagrams, IsMarked, AreMarked, IsRunOfSet, IsWithFound, IsSetJoined, AreSetsJoined, ArePredecessors, AreShownAt};

use crate::transitions::Transitions;
use nk_apply::{union, union_all};
use nk_determ::SetId;
use nk_field::{Act, List};
use nk_sets::{OutPackets, at_packets, image, packets_by_out};
use nk_store::{Id, Out, Store};
use std::alloc::{AllocError, Global};
use std::collections::HashMap;

/// The transitions of a graph by where they lead.
pub(crate) struct Predecessors {
    /// By number two indices for each transition: that of its set's transitions among all, then that of its out among their outs.
    pub(crate) places: List<(usize, usize)>,
    /// By set a diagram of the transitions into it: at each packet that they make, an out with target 1 + a transition's number.
    pub(crate) into: HashMap<SetId, Id>,
}

impl Drop for Predecessors {
    fn drop(self) {
        let Self { places: _, into: _ } = self;
    }
}

/// The transitions of a graph by where they lead. The only error is that memory ran out.
pub(crate) fn predecessors_of(
    st: &mut Store,
    ts: &List<Transitions>,
) -> Result<Predecessors, AllocError>
    requires suits_store { OutsSuitStore st.old ts.now }
    ensures grows { Grows st.old st.new }
    ensures ok { IfOk result (λ pre. ArePredecessors st.new ts.now pre.places pre.into.entries) }
{
    let places = all_places(st.alloc(), ts)?;
    let marked = marked_all(st, ts, &places)?;
    let ordered = in_order(marked);
    let into = joined_all(st, ordered.as_slice())?;
    Ok(Predecessors { places, into })
}

/// The two indices of each transition.
fn all_places(alloc: Global, ts: &List<Transitions>) -> Result<List<(usize, usize)>, AllocError>
    ensures { IfOk result (λ ps. ArePlacesBelow ts.now (length ts.now) ps) }
{
    let mut all = List::new(alloc);
    for k in 0..ts.len() {
        push_places(&mut all, k, ts.at(k).outs.len())?;
    }
    Ok(all)
}

/// Puts two indices for each of so many outs after others: k, and the index of the out.
fn push_places(all: &mut List<(usize, usize)>, k: usize, count: usize) -> Result<(), AllocError>
    ensures { OnOk result ((p : ℕ × ℕ)
        → Contains all.new p ↔ (Contains all.old p ⊎ ((p.0 ≡ k) × (p.1 < count)))) }
{
    for j in 0..count {
        all.push((k, j))?;
    }
    Ok(())
}

/// A diagram for each transition, with the set that it leads into.
fn marked_all(
    st: &mut Store,
    ts: &List<Transitions>,
    places: &List<(usize, usize)>,
) -> Result<List<(SetId, Id)>, AllocError>
    requires suits_store { OutsSuitStore st.old ts.now }
    requires places { ArePlacesBelow ts.now (length ts.now) places.now }
    ensures grows { Grows st.old st.new }
    ensures ok { IfOk result
        (λ ds. AreMarked st.old ts.now places.now (length places.now) st.new ds) }
{
    let mut all = List::new(st.alloc());
    for n in 0..places.len() {
        let place = *places.at(n);
        let t = ts.at(place.0);
        let q = t.outs.at(place.1);
        push_marked(st, q, n, &mut all)?;
    }
    Ok(all)
}

/// Puts the diagram of a transition after others, with the set that it leads into.
fn push_marked(
    st: &mut Store,
    q: &OutPackets,
    n: usize,
    all: &mut List<(SetId, Id)>,
) -> Result<(), AllocError>
    requires suits_store { SuitsStore st.old q.now }
    requires number { n + 1 < 2 ^ 64 }
    requires ids { HaveDiagrams st.old all.old }
    ensures grows { Grows st.old st.new }
    ensures ok { OnOk result (IsMarked st.old q.now n all.old st.new all.new) }
{
    if q.out.target == 0 {
        return Ok(());
    }
    let made = image(st, &q.out.act, q.packets)?;
    let mark = marked(st, n)?;
    let d = at_packets(st, made, mark)?;
    all.push((SetId::from_target(q.out.target), d))?;
    Ok(())
}

/// The leaf that stands for the transition of a number.
fn marked(st: &mut Store, n: usize) -> Result<Id, AllocError>
    requires { n + 1 < 2 ^ 64 }
    ensures grows { Grows st.old st.new }
    ensures ok { IfOk result (λ d. HasLeaves st.new d (λ pk. transition_out n ∷ [])) }
{
    let alloc = st.alloc();
    let mut outs = List::with_capacity(alloc, 1)?;
    outs.push(Out {
        act: Act::none(alloc),
        target: n as u64 + 1,
    })?;
    st.leaf_in_order(outs)
}

/// Ordered by their sets.
pub(crate) fn in_order(ds: List<(SetId, Id)>) -> List<(SetId, Id)>
    ensures { IsPermutation ds result }
{
    let mut all = ds.into_vec();
    all.sort_unstable();
    List::from_vec(all)
}

/// The diagrams of each set together. Those of one set that stand next to each other are put together at once.
fn joined_all(st: &mut Store, ds: &[(SetId, Id)]) -> Result<HashMap<SetId, Id>, AllocError>
    requires ids { HaveDiagrams st.old ds.now }
    ensures grows { Grows st.old st.new }
    ensures ok { IfOk result
        (λ into. AreSetsJoined st.old ds.now (length ds.now) st.new into.entries) }
{
    let mut into = HashMap::new(st.alloc());
    let mut from = 0;
    while from < ds.len() {
        let (to, run) = run_of_set(st.alloc(), ds, from)?;
        let d = union_all(st, run.as_slice())?;
        join_set(st, &mut into, set_at(ds, from), d)?;
        from = to;
    }
    Ok(into)
}

/// The set of the diagram at an index.
pub(crate) fn set_at(ds: &[(SetId, Id)], k: usize) -> SetId
    requires { k < length ds.now }
    ensures { result ≡ (diagram_at ds.now k).0 }
{
    ds[k].0
}

/// The diagrams of one set that stand next to each other from an index on, and the index after them.
pub(crate) fn run_of_set(
    alloc: Global,
    ds: &[(SetId, Id)],
    from: usize,
) -> Result<(usize, List<Id>), AllocError>
    requires { from < length ds.now }
    ensures { IfOk result (λ r. IsRunOfSet ds.now from r.0 r.1) }
{
    let set = ds[from].0;
    let mut all = List::new(alloc);
    all.push(ds[from].1)?;
    let mut to = from + 1;
    while to < ds.len() && ds[to].0 == set {
        all.push(ds[to].1)?;
        to += 1;
    }
    Ok((to, all))
}

/// Puts a diagram to what the table has for a set.
fn join_set(
    st: &mut Store,
    into: &mut HashMap<SetId, Id>,
    t: SetId,
    d: Id,
) -> Result<(), AllocError>
    requires into { FindDiagrams st.old into.old.entries }
    requires id { IsId st.old d }
    ensures grows { Grows st.old st.new }
    ensures ok { OnOk result (IsSetJoined st.old into.old.entries t d st.new into.new.entries) }
{
    let all = with_found(st, into, t, d)?;
    into.insert(t, all)?;
    Ok(())
}

/// A diagram with what the table has for a set.
fn with_found(st: &mut Store, into: &HashMap<SetId, Id>, t: SetId, d: Id) -> Result<Id, AllocError>
    requires into { FindDiagrams st.old into.now.entries }
    requires id { IsId st.old d }
    ensures grows { Grows st.old st.new }
    ensures ok { IfOk result (λ r. IsWithFound st.old into.now.entries t d st.new r) }
{
    match found(into, t) {
        Some(e) => {
            let r = union(st, e, d)?;
            Ok(r)
        }
        None => Ok(d),
    }
}

/// What the table has for a set.
fn found(into: &HashMap<SetId, Id>, t: SetId) -> Option<Id>
    ensures { result ≡ lookup (nat_eq t) into.now.entries }
{
    into.get(&t).copied()
}

/// The transitions into a set, each at those of some packets that it makes. The only error is that memory ran out.
pub(crate) fn outs_into(
    st: &mut Store,
    pre: &Predecessors,
    t: SetId,
    x: Id,
) -> Result<List<OutPackets>, AllocError>
    requires packets { IsSet st.old x }
    requires ids { FindDiagrams st.old pre.now.into.entries }
    ensures grows { Grows st.old st.new }
    ensures ok { IfOk result (λ es. AreShownAt st.old pre.now.into.entries t x st.new es) }
{
    match found(&pre.into, t) {
        Some(d) => {
            let there = at_packets(st, x, d)?;
            let outs = packets_by_out(st, there)?;
            Ok(outs)
        }
        None => Ok(List::new(st.alloc())),
    }
}

/// The two indices of the transition that a target stands for, if it stands for one: target n + 1 stands for the transition of number n.
pub(crate) fn place_of(places: &List<(usize, usize)>, target: u64) -> Option<(usize, usize)>
    ensures some { IfSome result
        (λ p. (n : ℕ) × (n < length places.now) × (target ≡ n + 1) × (p ≡ place_at places.now n)) }
    ensures none { result ≡ None → (n : ℕ) → n < length places.now → target ≡ n + 1 → ⊥ }
{
    if target == 0 {
        return None;
    }
    let n = (target - 1) as usize;
    if n < places.len() {
        Some(*places.at(n))
    } else {
        None
    }
}
