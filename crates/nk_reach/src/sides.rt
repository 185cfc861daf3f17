//! The goal of one side alone.
ghost use Rattle.std.specs.Prelude.{◌≡◌, ◌==◌, ℕ, ◌<◌, ◌++◌, [], if◌then◌else◌, nat_eq, IfOk, OnOk, flat_map, map, length, slice_index, List as Items};
ghost use Rattle.std.specs.Map.{lookup};
ghost use Rattle.std.proofs.Common.{ap};
ghost use Rattle.nk_store.specs.StoreState.{IsId, IsStorePacket, look, Grows, HasLeaves};
ghost use Rattle.nk_apply.specs.Unions.{AreIds};
ghost use Rattle.nk_apply.specs.Leaves.{merged};
ghost use Rattle.nk_determ.specs.Pairs.{AreLabelsBelow};
ghost use Rattle.nk_reach.specs.Sides.{alone_out, alone, ends_of, ends_same, alone_sided, twin, finals_of_side, label_side, AreSideFinals, AreFinalsOfSide, AreAloneOf, IsPropertyOfEnds, property_grows, AreOneSided};

use nk_apply::{LeafMap, map_leaves, union, union_all};
use nk_determ::{SetId, Sets, retarget, split};
use nk_field::List;
use nk_goal::Goal;
use nk_steps::each_once;
use nk_store::{Id, Out, Store};
use std::alloc::{AllocError, Global};
use std::collections::HashMap;

/// What one of two sides alone ends at is bad: a final with target 0 is the left side's, one with target 1 the right's.
#[derive(Drop)]
pub struct OneSide {
    /// By label the diagram of its marked ends: acts that assign exactly what they change, with target 1 where the left side
    /// ends and 2 where the right side does. A label of both sides has both.
    pub ends: List<Id>,
    /// What one side alone has of ends that were asked for, by the number of these ends.
    pub seen: HashMap<Id, Id>,
}

impl Goal for OneSide {
    ghost fits = { λ g st. IsPropertyOfEnds st g.ends g.seen.entries };

    ghost labels = { λ g. length g.ends };

    ghost violations_of = { λ g st set pk. alone (ends_of st g.ends set pk) };

    ghost fits_on = { λ g old new fits grows. property_grows old new g.ends g.seen.entries fits grows };

    ghost violations_grow = { λ g old new set pk fits grows places. ap alone (ends_same old new g.ends set pk grows fits.ids places) };

    ghost sided = { λ g st set pk o fits whole among. alone_sided (ends_of st g.ends set pk) o among };

    fn bad(&mut self, st: &mut Store, ss: &Sets, s: SetId) -> Result<Id, AllocError> {
        let picked = ends_at(st.alloc(), self.ends.as_slice(), ss.members(s))?;
        let ds = each_once(picked);
        st.laws();
        let ends = union_all(st, ds.as_slice())?;
        let r = alone_once(st, &mut self.seen, ends)?;
        Ok(r)
    }
}

impl OneSide {
    /// The goal for states of which the first one stands for the starts of both sides, those below the bound for labels of the
    /// left side, and the others for labels of the right. The only error is that memory ran out.
    pub fn new(
        st: &mut Store,
        states: &[Id],
        left: Id,
        right: Id,
        bound: usize,
    ) -> Result<OneSide, AllocError>
        requires states { AreIds st.old states.now }
        requires left { IsId st.old left }
        requires right { IsId st.old right }
        ensures grows { Grows st.old st.new }
        ensures ids { IfOk result (λ g. AreIds st.new g.ends) }
        ensures fits { IfOk result (λ g. IsPropertyOfEnds st.new g.ends g.seen.entries) }
        ensures marked { IfOk result
            (λ g. AreSideFinals st.old states.now left right bound
            (length states.now) st.new g.ends) }
        ensures alone { IfOk result
            (λ g. (set pk : Items ℕ) → AreLabelsBelow (length states.now) set
            → IsStorePacket st.old pk →
            AreOneSided st.old states.now left right bound set pk
            (alone (ends_of st.new g.ends set pk))) }
    {
        st.laws();
        let mut marks = MarkedStates::new(st.alloc());
        let mut ends = List::new(st.alloc());
        for l in 0..states.len() {
            let d = marked_state(st, &mut marks, states, left, right, bound, l)?;
            ends.push(d)?;
        }
        let seen = HashMap::new(st.alloc());
        Ok(OneSide { ends, seen })
    }
}

/// The marked ends that were made of states, by the state: those of the left side and those of the right.
#[derive(Drop)]
struct MarkedStates {
    left: HashMap<Id, Id>,
    right: HashMap<Id, Id>,
}

impl MarkedStates {
    /// Of no state; it takes no memory.
    fn new(alloc: Global) -> MarkedStates
        ensures left { result.left.entries ≡ [] }
        ensures right { result.right.entries ≡ [] }
    {
        MarkedStates {
            left: HashMap::new(alloc),
            right: HashMap::new(alloc),
        }
    }
}

/// The marked ends of a label.
fn marked_state(
    st: &mut Store,
    marks: &mut MarkedStates,
    states: &[Id],
    left: Id,
    right: Id,
    bound: usize,
    l: usize,
) -> Result<Id, AllocError>
    requires states { AreIds st.old states.now }
    requires left { IsId st.old left }
    requires right { IsId st.old right }
    requires label { l < length states.now }
    requires of_left { AreFinalsOfSide st.old 1 marks.old.left.entries }
    requires of_right { AreFinalsOfSide st.old 2 marks.old.right.entries }
    ensures grows { Grows st.old st.new }
    ensures start { IfOk result
        (λ d. l ≡ 0 → HasLeaves st.new d
        (λ pk. merged (finals_of_side st.old left 1 pk) (finals_of_side st.old right 2 pk))) }
    ensures rest { IfOk result
        (λ d. 0 < l → HasLeaves st.new d
        (λ pk. finals_of_side st.old (slice_index states.now l) (label_side bound l) pk)) }
    ensures of_left { OnOk result (AreFinalsOfSide st.new 1 marks.new.left.entries) }
    ensures of_right { OnOk result (AreFinalsOfSide st.new 2 marks.new.right.entries) }
{
    if l == 0 {
        let d = marked_starts(st, left, right)?;
        return Ok(d);
    }
    marked_label(st, marks, states[l], bound, l)
}

/// The marked ends of both starts.
fn marked_starts(st: &mut Store, left: Id, right: Id) -> Result<Id, AllocError>
    requires left { IsId st.old left }
    requires right { IsId st.old right }
    ensures grows { Grows st.old st.new }
    ensures ok { IfOk result
        (λ d. HasLeaves st.new d
        (λ pk. merged (finals_of_side st.old left 1 pk) (finals_of_side st.old right 2 pk))) }
{
    let first = marked_ends(st, left, 1)?;
    let second = marked_ends(st, right, 2)?;
    union(st, first, second)
}

/// The marked ends of the state of a label, which is below the bound where it is of the left side.
fn marked_label(
    st: &mut Store,
    marks: &mut MarkedStates,
    state: Id,
    bound: usize,
    l: usize,
) -> Result<Id, AllocError>
    requires state { IsId st.old state }
    requires of_left { AreFinalsOfSide st.old 1 marks.old.left.entries }
    requires of_right { AreFinalsOfSide st.old 2 marks.old.right.entries }
    ensures grows { Grows st.old st.new }
    ensures ok { IfOk result
        (λ r. HasLeaves st.new r (λ pk. finals_of_side st.old state (label_side bound l) pk)) }
    ensures of_left { OnOk result (AreFinalsOfSide st.new 1 marks.new.left.entries) }
    ensures of_right { OnOk result (AreFinalsOfSide st.new 2 marks.new.right.entries) }
{
    if l < bound {
        let r = marked_once(st, &mut marks.left, state, 1)?;
        return Ok(r);
    }
    let r = marked_once(st, &mut marks.right, state, 2)?;
    Ok(r)
}

/// The marked ends of a state, which are looked up where they were made before.
fn marked_once(
    st: &mut Store,
    made: &mut HashMap<Id, Id>,
    state: Id,
    mark: u64,
) -> Result<Id, AllocError>
    requires state { IsId st.old state }
    requires made { AreFinalsOfSide st.old mark made.old.entries }
    ensures grows { Grows st.old st.new }
    ensures ok { IfOk result (λ r. HasLeaves st.new r (λ pk. finals_of_side st.old state mark pk)) }
    ensures made { OnOk result (AreFinalsOfSide st.new mark made.new.entries) }
{
    if let Some(r) = known(made, state) {
        return Ok(r);
    }
    let r = marked_ends(st, state, mark)?;
    made.insert(state, r)?;
    Ok(r)
}

/// What the table has for a diagram.
fn known(table: &HashMap<Id, Id>, d: Id) -> Option<Id>
    ensures { result ≡ lookup (nat_eq d) table.now.entries }
{
    table.get(&d).copied()
}

/// The finals of a diagram, made exact and marked. They are marked first, since they are few of its outs.
fn marked_ends(st: &mut Store, d: Id, mark: u64) -> Result<Id, AllocError>
    requires { IsId st.old d }
    ensures grows { Grows st.old st.new }
    ensures ok { IfOk result (λ r. HasLeaves st.new r (λ pk. finals_of_side st.old d mark pk)) }
{
    let finals = retarget(st, d, &[Some(mark)])?;
    split(st, finals)
}

/// The diagrams of some labels.
fn ends_at(alloc: Global, ends: &[Id], labels: &[u64]) -> Result<List<Id>, AllocError>
    requires { AreLabelsBelow (length ends.now) labels.now }
    ensures { IfOk result (λ ds. ds ≡ map (slice_index ends.now) labels.now) }
{
    let mut ds = List::with_capacity(alloc, labels.len())?;
    for l in labels {
        ds.push(ends[*l as usize])?;
    }
    Ok(ds)
}

/// What one side alone has of ends, which is looked up where it was made before.
fn alone_once(st: &mut Store, seen: &mut HashMap<Id, Id>, ends: Id) -> Result<Id, AllocError>
    requires ends { IsId st.old ends }
    requires seen { AreAloneOf st.old seen.old.entries }
    ensures grows { Grows st.old st.new }
    ensures ok { IfOk result (λ r. HasLeaves st.new r (λ pk. alone (look st.old ends pk))) }
    ensures seen { OnOk result (AreAloneOf st.new seen.new.entries) }
{
    if let Some(r) = known(seen, ends) {
        return Ok(r);
    }
    let r = map_leaves(st, &Alone {}, ends)?;
    seen.insert(ends, r)?;
    Ok(r)
}

/// The ends of one side alone.
#[derive(Drop)]
struct Alone {}

impl LeafMap for Alone {
    ghost mapped = { λ _ os. alone os };

    ghost allowed = { λ _ _. Unit {0} };

    fn map(&self, alloc: Global, outs: &[Out]) -> Result<List<Out>, AllocError> {
        alone_outs(alloc, outs)
    }
}

/// The ends of one side alone, in their order.
fn alone_outs(alloc: Global, outs: &[Out]) -> Result<List<Out>, AllocError>
    ensures { IfOk result (λ r. r ≡ flat_map (alone_out outs.now) outs.now) }
{
    let mut all = List::new(alloc);
    for o in outs {
        push_alone(&mut all, outs, o)?;
    }
    Ok(all)
}

/// Appends an end that the other side has not.
fn push_alone(all: &mut List<Out>, outs: &[Out], o: &Out) -> Result<(), AllocError>
    ensures { OnOk result (all.new ≡ all.old ++ alone_out outs.now o.now) }
{
    let other = twin_of(o)?;
    if !outs.contains(&other) {
        all.push(Out {
            act: o.act.copy()?,
            target: side(o.target),
        })?;
    }
    Ok(())
}

/// The end of the other side with this end's act.
fn twin_of(o: &Out) -> Result<Out, AllocError>
    ensures { IfOk result (λ p. p ≡ twin o.now) }
{
    Ok(Out {
        act: o.act.copy()?,
        target: if o.target == 1 { 2 } else { 1 },
    })
}

/// The number of the side that a mark tells: 0 for the left, 1 for the right.
fn side(mark: u64) -> u64
    ensures { result ≡ (if mark == 1 then 0 else 1) }
{
    if mark == 1 { 0 } else { 1 }
}
