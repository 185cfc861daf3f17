//! The diagram of a set state: of diagrams together, and of the states at a set of labels.
ghost use Rattle.std.specs.Prelude.{◌≡◌, ◌↔◌, ℕ, ◌+◌, ◌<◌, ◌≤◌, [], ◌++◌, All, List as Items, IfOk, OnOk, length, flat_map, map, slice_index, slice_index_or};
ghost use Rattle.std.specs.List.{Contains};
ghost use Rattle.std.specs.List.Sorted.{IsStrictlyIncreasing};
ghost use Rattle.nk_store.specs.Leaves.{Strict};
ghost use Rattle.nk_store.specs.Nodes.{child_at};
ghost use Rattle.nk_store.specs.StoreState.{StoreState, IsId, IsWhole, IsStorePacket, look, root_field, Grows, AreParts};
ghost use Rattle.nk_apply.specs.Cofactors.{cofactor, IsSplit};
ghost use Rattle.nk_apply.specs.Unions.{AreIds};
ghost use Rattle.nk_determ.specs.Exact.{split_leaf, AreExact, Sends};
ghost use Rattle.nk_determ.specs.Sets.{SetsGrow};
ghost use Rattle.nk_determ.specs.Branches.{branches, branch_of, first_act, labels, targets_in};
ghost use Rattle.nk_determ.specs.States.{SomeSends, SomeLeads, IsRegrouped, AreRegrouped, AreFollowed, AreLedTo, StateSends, StateLeads, IsLedByAct, IsLedTo, HaveEach, IsTogether, IsStateOf, IsThere, HasAll, HasSets, final_of, out_to_set, branch_outs, regrouped};

use crate::branches::{are_final, is_ended, labels_in, run_length};
use crate::sets::{SetId, Sets};
use crate::splits::split;
use nk_apply::{Memo, known, part_count, part_near, tested, union_all};
use nk_field::{Fid, List};
use nk_store::{Id, Node, Out, Store};
use std::alloc::{AllocError, Global};

/// For how many outs of a regrouped leaf there is room at first: mostly many outs go together.
const FIRST_ROOM: usize = 4;

/// The diagram of a set of labels, each of which is a place among the states: a final act with target 0 for each packet that
/// some member ends at, and for each packet that some member records next one act with target 1 + the number of the set of
/// all labels that record it. Sets that aren't there yet are put in. The only error is that memory ran out.
pub fn state(st: &mut Store, ss: &mut Sets, states: &[Id], s: SetId) -> Result<Id, AllocError>
    requires states { AreIds st.old states.now }
    requires set { s < length ss.old }
    requires places { All (λ l. l < length states.now) (slice_index_or ss.old s []) }
    ensures grows { Grows st.old st.new }
    ensures sets { SetsGrow ss.old ss.new }
    ensures id { IfOk result (λ r. IsId st.new r) }
    ensures exact { IfOk result (λ r. AreExact st.new r) }
    ensures finals { IfOk result (λ r. (pk : Items ℕ) (g : Items (ℕ × ℕ)) → IsWhole pk →
        Contains (look st.new r pk) (record { act = g; target = 0 })
        ↔ StateSends st.old states.now (slice_index_or ss.old s []) pk g 0) }
    ensures next { IfOk result (λ r. (pk : Items ℕ) (g : Items (ℕ × ℕ)) (i : ℕ) → IsWhole pk →
        Contains (look st.new r pk) (record { act = g; target = i + 1 }) →
        IsLedByAct ss.new st.old states.now (slice_index_or ss.old s []) pk g i) }
    ensures recorded { IfOk result
        (λ r. (pk : Items ℕ) (g : Items (ℕ × ℕ)) (l : ℕ) → IsWhole pk → 0 < l →
        StateSends st.old states.now (slice_index_or ss.old s []) pk g l →
        (i : ℕ) × Contains (look st.new r pk) (record { act = g; target = i + 1 })) }
    ensures once { IfOk result (λ r. (pk : Items ℕ) (g : Items (ℕ × ℕ)) (i j : ℕ) → IsWhole pk →
        Contains (look st.new r pk) (record { act = g; target = i + 1 }) →
        Contains (look st.new r pk) (record { act = g; target = j + 1 }) → i ≡ j) }
    ensures ends { IfOk result (λ r. (pk y : Items ℕ) → IsStorePacket st.old pk →
        Sends st.new r pk y 0 ↔ StateLeads st.old states.now (slice_index_or ss.old s []) pk y 0) }
    ensures leads { IfOk result
        (λ r. (pk y : Items ℕ) (i : ℕ) → IsStorePacket st.old pk → Sends st.new r pk y (i + 1) →
        IsLedTo ss.new st.old states.now (slice_index_or ss.old s []) pk y i) }
    ensures led { IfOk result (λ r. (pk y : Items ℕ) (l : ℕ) → IsStorePacket st.old pk → 0 < l →
        StateLeads st.old states.now (slice_index_or ss.old s []) pk y l → (i : ℕ)
        × Sends st.new r pk y (i + 1)) }
{
    let diagrams = states_at(st.alloc(), states, ss.members(s))?;
    let r = state_of(st, ss, diagrams.as_slice())?;
    Ok(r)
}

/// The states at these labels, in their order. The only error is that memory ran out.
pub fn states_at(alloc: Global, states: &[Id], labels: &[u64]) -> Result<List<Id>, AllocError>
    requires { All (λ l. l < length states.now) labels.now }
    ensures { IfOk result (λ ds. ds ≡ map (λ l. slice_index states.now l) labels.now) }
{
    let mut ds = List::with_capacity(alloc, labels.len())?;
    for l in labels {
        ds.push(state_at(states, *l))?;
    }
    Ok(ds)
}

/// The state at a place.
pub fn state_at(states: &[Id], place: u64) -> Id
    requires { place < length states.now }
    ensures { result ≡ slice_index states.now place }
{
    states[place as usize]
}

/// What these diagrams do together, as the diagram of a set state: a final act with target 0 for each packet that some
/// diagram ends at, and for each packet that some diagram records next one act with target 1 + the number of the set of all
/// labels with which some diagram records it. Sets that aren't there yet are put in. The only error is that memory ran out.
pub fn state_of(st: &mut Store, ss: &mut Sets, diagrams: &[Id]) -> Result<Id, AllocError>
    requires { AreIds st.old diagrams.now }
    ensures grows { Grows st.old st.new }
    ensures sets { SetsGrow ss.old ss.new }
    ensures id { IfOk result (λ r. IsId st.new r) }
    ensures exact { IfOk result (λ r. AreExact st.new r) }
    ensures finals { IfOk result (λ r. (pk : Items ℕ) (g : Items (ℕ × ℕ)) → IsWhole pk →
        Contains (look st.new r pk) (record { act = g; target = 0 })
        ↔ SomeSends st.old diagrams.now pk g 0) }
    ensures next { IfOk result (λ r. (pk : Items ℕ) (g : Items (ℕ × ℕ)) (i : ℕ) → IsWhole pk →
        Contains (look st.new r pk) (record { act = g; target = i + 1 }) →
        AreFollowed ss.new st.old diagrams.now pk g i) }
    ensures recorded { IfOk result
        (λ r. (pk : Items ℕ) (g : Items (ℕ × ℕ)) (l : ℕ) → IsWhole pk → 0 < l →
        SomeSends st.old diagrams.now pk g l →
        (i : ℕ) × Contains (look st.new r pk) (record { act = g; target = i + 1 })) }
    ensures once { IfOk result (λ r. (pk : Items ℕ) (g : Items (ℕ × ℕ)) (i j : ℕ) → IsWhole pk →
        Contains (look st.new r pk) (record { act = g; target = i + 1 }) →
        Contains (look st.new r pk) (record { act = g; target = j + 1 }) → i ≡ j) }
    ensures ends { IfOk result (λ r. (pk y : Items ℕ) → IsStorePacket st.old pk →
        Sends st.new r pk y 0 ↔ SomeLeads st.old diagrams.now pk y 0) }
    ensures leads { IfOk result
        (λ r. (pk y : Items ℕ) (i : ℕ) → IsStorePacket st.old pk → Sends st.new r pk y (i + 1) →
        AreLedTo ss.new st.old diagrams.now pk y i) }
    ensures led { IfOk result (λ r. (pk y : Items ℕ) (l : ℕ) → IsStorePacket st.old pk → 0 < l →
        SomeLeads st.old diagrams.now pk y l → (i : ℕ) × Sends st.new r pk y (i + 1)) }
{
    st.laws();
    let r = regrouped_union(st, ss, diagrams)?;
    Ok(r)
}

/// The diagram of what these diagrams do together, and what it was made of.
fn regrouped_union(st: &mut Store, ss: &mut Sets, diagrams: &[Id]) -> Result<Id, AllocError>
    requires { AreIds st.old diagrams.now }
    ensures grows { Grows st.old st.new }
    ensures sets { SetsGrow ss.old ss.new }
    ensures made { IfOk result
        (λ r. (mid : StoreState) × (d : ℕ) × IsStateOf st.old mid st.new ss.new diagrams.now d r) }
{
    let d = together(st, diagrams)?;
    st.laws();
    regroup(st, ss, d)
}

/// All that these diagrams do, split.
fn together(st: &mut Store, diagrams: &[Id]) -> Result<Id, AllocError>
    requires { AreIds st.old diagrams.now }
    ensures grows { Grows st.old st.new }
    ensures ok { IfOk result (λ d. IsTogether st.old diagrams.now st.new d) }
{
    let ds = split_all(st, diagrams)?;
    union_all(st, ds.as_slice())
}

/// These diagrams, each split.
fn split_all(st: &mut Store, diagrams: &[Id]) -> Result<List<Id>, AllocError>
    requires { AreIds st.old diagrams.now }
    ensures grows { Grows st.old st.new }
    ensures len { IfOk result (λ ds. length ds ≡ length diagrams.now) }
    ensures ok { IfOk result (λ ds. HaveEach st.new ds
        (λ k pk. split_leaf st.old.maxes pk (look st.old (slice_index diagrams.now k) pk))
        (length ds)) }
{
    let mut ds = List::with_capacity(st.alloc(), diagrams.len())?;
    for whole in diagrams {
        let d = split(st, *whole)?;
        ds.push(d)?;
    }
    Ok(ds)
}

/// The diagram with the outs of each act to the set of all labels of the act. Each node is visited once.
pub fn regroup(st: &mut Store, ss: &mut Sets, d: Id) -> Result<Id, AllocError>
    requires { IsId st.old d }
    ensures grows { Grows st.old st.new }
    ensures sets { SetsGrow ss.old ss.new }
    ensures ok { IfOk result (λ r. IsRegrouped st.old d st.new ss.new r) }
{
    let mut seen = Memo::new(st.alloc());
    regroup_new(st, ss, &mut seen, d)
}

/// The diagram with the outs of each act to the set of all labels of the act, which is looked up where it was made before.
#[cycle(regroup)]
fn regroup_once(st: &mut Store, ss: &mut Sets, seen: &mut Memo<Id>, d: Id) -> Result<Id, AllocError>
    requires id { IsId st.old d }
    requires seen { AreRegrouped st.old ss.old seen.old }
    ensures grows { Grows st.old st.new }
    ensures sets { SetsGrow ss.old ss.new }
    ensures ok { IfOk result (λ r. IsRegrouped st.old d st.new ss.new r) }
    ensures later { IfOk result (λ r. root_field st.old d ≤ root_field st.new r) }
    ensures seen { OnOk result (AreRegrouped st.new ss.new seen.new) }
{
    if let Some(r) = known(seen, d) {
        return Ok(r);
    }
    let r = regroup_new(st, ss, seen, d)?;
    seen.insert(d, r)?;
    Ok(r)
}

/// The diagram with the outs of each act to the set of all labels of the act, made anew.
#[cycle(regroup)]
fn regroup_new(st: &mut Store, ss: &mut Sets, seen: &mut Memo<Id>, d: Id) -> Result<Id, AllocError>
    requires id { IsId st.old d }
    requires seen { AreRegrouped st.old ss.old seen.old }
    ensures grows { Grows st.old st.new }
    ensures sets { SetsGrow ss.old ss.new }
    ensures ok { IfOk result (λ r. IsRegrouped st.old d st.new ss.new r) }
    ensures later { IfOk result (λ r. root_field st.old d ≤ root_field st.new r) }
    ensures seen { OnOk result (AreRegrouped st.new ss.new seen.new) }
{
    match tested(st, d) {
        None => regroup_leaf(st, ss, d),
        Some(f) => {
            let parts = regroup_parts(st, ss, seen, f, d)?;
            st.case(f, parts)
        }
    }
}

/// The parts of the regrouped diagram by the first field.
#[cycle(regroup)]
fn regroup_parts(
    st: &mut Store,
    ss: &mut Sets,
    seen: &mut Memo<Id>,
    f: Fid,
    d: Id,
) -> Result<List<(u64, Id)>, AllocError>
    requires id { IsId st.old d }
    requires field { f < 18 }
    requires first { root_field st.old d ≡ f }
    requires split { IsSplit st.old f d }
    requires seen { AreRegrouped st.old ss.old seen.old }
    ensures grows { Grows st.old st.new }
    ensures sets { SetsGrow ss.old ss.new }
    ensures parts { IfOk result (λ ps. AreParts st.new f ps) }
    ensures ok { IfOk result
        (λ ps. (later : Items (Items ℕ)) → SetsGrow ss.new later → (v : ℕ) (pk : Items ℕ)
        → IsWhole pk →
        look st.new (child_at 0 ps v) pk
        ≡ regrouped later (look st.old (cofactor st.old f v d) pk)) }
    ensures held { OnOk result (HasSets ss.new st.old d) }
    ensures seen { OnOk result (AreRegrouped st.new ss.new seen.new) }
{
    let max = st.max(f);
    let mut parts = List::with_capacity(st.alloc(), part_count(st, d, f))?;
    let mut near = 0;
    let mut from = 0;
    loop {
        let (end, child) = part_near(st, d, f, from, &mut near);
        let to = regroup_once(st, ss, seen, child)?;
        parts.push((end, to))?;
        if end == max {
            return Ok(parts);
        }
        from = end + 1;
    }
}

/// The regrouped diagram of a leaf. A leaf whose outs are all final is its own.
fn regroup_leaf(st: &mut Store, ss: &mut Sets, d: Id) -> Result<Id, AllocError>
    requires id { IsId st.old d }
    requires leaf { 18 ≤ root_field st.old d }
    ensures grows { Grows st.old st.new }
    ensures sets { SetsGrow ss.old ss.new }
    ensures ok { IfOk result (λ r. IsRegrouped st.old d st.new ss.new r) }
    ensures later { IfOk result (λ r. root_field st.old d ≤ root_field st.new r) }
{
    let outs = match st.view(d) {
        Node::Leaf(outs) => {
            if are_final(outs.as_slice()) {
                return Ok(d);
            }
            outs_to_sets(st.alloc(), ss, outs.as_slice())?
        }
        Node::Case(_, _) => unreachable!(),
    };
    st.leaf(outs)
}

/// The outs of each branch of a leaf. Sets that aren't there yet are put in.
fn outs_to_sets(alloc: Global, sets: &mut Sets, outs: &[Out]) -> Result<List<Out>, AllocError>
    requires { Strict outs.now }
    ensures grows { SetsGrow sets.old sets.new }
    ensures is { IfOk result (λ r. (later : Items (Items ℕ)) → SetsGrow sets.new later →
        r ≡ flat_map (branch_outs later) (branches outs.now)) }
    ensures held { OnOk result (HasAll sets.new outs.now) }
{
    let mut all = List::with_capacity(alloc, outs.len().min(FIRST_ROOM))?;
    let mut rest = outs;
    while !rest.is_empty() {
        let (run, following) = rest.split_at(run_length(rest));
        push_run(&mut all, sets, run)?;
        rest = following;
    }
    Ok(all)
}

/// Appends what is made of outs of one act. The set of their labels is put in where it isn't there.
fn push_run(all: &mut List<Out>, sets: &mut Sets, run: &[Out]) -> Result<(), AllocError>
    requires some { 0 < length run.now }
    requires ascend { IsStrictlyIncreasing (labels (targets_in run.now)) }
    ensures grows { SetsGrow sets.old sets.new }
    ensures is { OnOk result ((later : Items (Items ℕ)) → SetsGrow sets.new later →
        all.new ≡ all.old ++ branch_outs later (branch_of run.now)) }
    ensures there { OnOk result (IsThere sets.new (labels (targets_in run.now))) }
{
    push_final(all, run)?;
    push_to_set(all, sets, run)
}

/// Appends the final act of outs of one act, if one of them is to the end.
fn push_final(all: &mut List<Out>, run: &[Out]) -> Result<(), AllocError>
    requires { 0 < length run.now }
    ensures { OnOk result (all.new ≡ all.old ++ final_of (first_act run.now) (targets_in run.now)) }
{
    if is_ended(run) {
        all.push(Out {
            act: run[0].act.copy()?,
            target: 0,
        })?;
    }
    Ok(())
}

/// Appends the act of outs of one act to the set of their labels, if there are any. The set is put in where it isn't there.
fn push_to_set(all: &mut List<Out>, sets: &mut Sets, run: &[Out]) -> Result<(), AllocError>
    requires some { 0 < length run.now }
    requires ascend { IsStrictlyIncreasing (labels (targets_in run.now)) }
    ensures grows { SetsGrow sets.old sets.new }
    ensures is { OnOk result ((later : Items (Items ℕ)) → SetsGrow sets.new later →
        all.new ≡ all.old ++ out_to_set later (first_act run.now) (labels (targets_in run.now))) }
    ensures there { OnOk result (IsThere sets.new (labels (targets_in run.now))) }
{
    let labels = labels_in(all.alloc(), run)?;
    if labels.is_empty() {
        return Ok(());
    }
    let s = sets.put(labels)?;
    all.push(Out {
        act: run[0].act.copy()?,
        target: s.target(),
    })
}
