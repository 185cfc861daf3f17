//! The least history.
ghost use Rattle.std.specs.Prelude.{◌≡◌, ℕ, ◌-◌, ◌<◌, ◌≤◌, [], true, IfOk, OnOk, length, slice_index_or, List as Items};
ghost use Rattle.nk_field.specs.Order.{IsLeast};
ghost use Rattle.nk_store.specs.StoreState.{StoreState, IsStorePacket, Grows};
ghost use Rattle.nk_determ.specs.Sets.{SetsGrow, HasEachSetOnce};
ghost use Rattle.nk_determ.specs.Pairs.{AreStates};
ghost use Rattle.nk_determ.specs.Levels.{AreLevels};
ghost use Rattle.nk_witness.specs.Histories.{IsCounterexampleWithTarget, IsCounterexample};
ghost use Rattle.nk_witness.specs.Backs.{AreBacks};
ghost use Rattle.nk_witness.specs.Finds.{first_set, first_packets, target_of, found_of};

use crate::back::violation_level;
use crate::forward::{last_packet, least_under, next_packet};
use crate::found::{Found, Side};
use crate::preimages::preimage_in_level;
use nk_determ::{Levels, SetId, Sets};
use nk_field::{History, List};
use nk_goal::{Entries, Goal};
use nk_store::{Id, Store};
use std::alloc::AllocError;

/// The least history that breaks a goal: it starts at one of the packets that the levels start from, its records follow
/// the states' set states, and a violation of the side that is told makes its last packet. Fewer records come first, then the
/// lesser start, then the records in turn, then the last packet; where a violation of either side makes that history, the
/// left side is told. The levels are those of these states and this goal, and ended at a violation. The only error is that
/// memory ran out; then the store and the sets have only grown, and nothing is said of the goal.
pub fn least_history<G: Goal>(
    st: &mut Store,
    ss: &mut Sets,
    states: &[Id],
    l: &Levels,
    g: &mut G,
) -> Result<Found, AllocError>
    requires fits { G.fits g.old st.old }
    requires labels { length states.now ≤ G.labels g.old }
    requires states { AreStates st.old states.now }
    requires levels { AreLevels st.old st.old ss.old states.now (first_set l.now.levels)
        (first_packets l.now.levels) (G.violations_of g.old st.old) l.now.levels l.now.broken }
    requires broken { l.now.broken ≡ true }
    ensures grows { Grows st.old st.new }
    ensures sets { SetsGrow ss.old ss.new }
    ensures breaks { IfOk result (λ f.
        IsCounterexampleWithTarget st.old states.now
        (slice_index_or ss.old (first_set l.now.levels) [])
        (first_packets l.now.levels) (G.violations_of g.old st.old) (target_of f.side)
        (found_of f)) }
    ensures least { IfOk result (λ f.
        IsLeast (IsCounterexample st.old states.now
        (slice_index_or ss.old (first_set l.now.levels) [])
        (first_packets l.now.levels) (G.violations_of g.old st.old)) (found_of f)) }
    ensures left { IfOk result (λ f.
        IsCounterexampleWithTarget st.old states.now
        (slice_index_or ss.old (first_set l.now.levels) [])
        (first_packets l.now.levels) (G.violations_of g.old st.old) 0 (found_of f)
        → f.side ≡ Side.Left) }
    ensures range { IfOk result (λ f. IsStorePacket st.old f.history.last) }
    ensures fits { OnOk result (G.fits g.new st.new) }
    ensures labels { OnOk result (G.labels g.new ≡ G.labels g.old) }
    ensures same { OnOk result
        ((st : StoreState) (set pk : Items ℕ)
        → G.violations_of g.new st set pk ≡ G.violations_of g.old st set pk) }
{
    let mut backs = List::new(st.alloc());
    let found = go_forward(st, ss, states, &mut backs, l, g)?;
    Ok(found)
}

/// Goes forward by least packets. The lists of each level's packets from where something bad is met are put into `backs`.
fn go_forward<G: Goal>(
    st: &mut Store,
    ss: &mut Sets,
    states: &[Id],
    backs: &mut List<Entries>,
    l: &Levels,
    g: &mut G,
) -> Result<Found, AllocError>
    requires fits { G.fits g.old st.old }
    requires labels { length states.now ≤ G.labels g.old }
    requires states { AreStates st.old states.now }
    requires levels { AreLevels st.old st.old ss.old states.now (first_set l.now.levels)
        (first_packets l.now.levels) (G.violations_of g.old st.old) l.now.levels l.now.broken }
    requires broken { l.now.broken ≡ true }
    ensures grows { Grows st.old st.new }
    ensures sets { SetsGrow ss.old ss.new }
    ensures breaks { IfOk result (λ f.
        IsCounterexampleWithTarget st.old states.now
        (slice_index_or ss.old (first_set l.now.levels) [])
        (first_packets l.now.levels) (G.violations_of g.old st.old) (target_of f.side)
        (found_of f)) }
    ensures least { IfOk result (λ f.
        IsLeast (IsCounterexample st.old states.now
        (slice_index_or ss.old (first_set l.now.levels) [])
        (first_packets l.now.levels) (G.violations_of g.old st.old)) (found_of f)) }
    ensures left { IfOk result (λ f.
        IsCounterexampleWithTarget st.old states.now
        (slice_index_or ss.old (first_set l.now.levels) [])
        (first_packets l.now.levels) (G.violations_of g.old st.old) 0 (found_of f)
        → f.side ≡ Side.Left) }
    ensures range { IfOk result (λ f. IsStorePacket st.old f.history.last) }
    ensures fits { OnOk result (G.fits g.new st.new) }
    ensures labels { OnOk result (G.labels g.new ≡ G.labels g.old) }
    ensures same { OnOk result
        ((st : StoreState) (set pk : Items ℕ)
        → G.violations_of g.new st set pk ≡ G.violations_of g.old st set pk) }
{
    let made = backs_of(st, ss, states, l, g)?;
    *backs = made;
    let last = l.levels.len() - 1;
    let set = start_set(l);
    let whole = backs.at(last);
    let start = least_under(st, whole, set)?;
    let mut records = List::new(st.alloc());
    let mut s = set;
    let mut x = start;
    for i in 0..last {
        let here = backs.at(last - i);
        let next = backs.at(last - i - 1);
        let step = next_packet(st, ss, states, s, &x, here, next)?;
        records.push(step.1)?;
        s = step.0;
        x = step.1;
    }
    let end = last_packet(st, ss, s, &x, g)?;
    Ok(Found {
        start,
        history: History {
            records,
            last: end.packet,
        },
        side: side_of(end.target),
    })
}

/// The set that levels start from.
fn start_set(l: &Levels) -> SetId
    requires levels { 0 < length l.now.levels }
    requires entries { 0 < length (slice_index_or l.now.levels 0 []) }
    ensures { result ≡ first_set l.now.levels }
{
    l.levels.at(0).at(0).0
}

/// The side of a violation.
fn side_of(target: u64) -> Side
    ensures left { target ≡ 0 → result ≡ Side.Left }
    ensures right { target ≡ 1 → result ≡ Side.Right }
{
    if target == 0 { Side::Left } else { Side::Right }
}

/// For each level, from the last one back, its packets from where something bad is met in the levels that are left.
fn backs_of<G: Goal>(
    st: &mut Store,
    ss: &mut Sets,
    states: &[Id],
    l: &Levels,
    g: &mut G,
) -> Result<List<Entries>, AllocError>
    requires fits { G.fits g.old st.old }
    requires labels { length states.now ≤ G.labels g.old }
    requires states { AreStates st.old states.now }
    requires levels { AreLevels st.old st.old ss.old states.now (first_set l.now.levels)
        (first_packets l.now.levels) (G.violations_of g.old st.old) l.now.levels l.now.broken }
    ensures grows { Grows st.old st.new }
    ensures sets { SetsGrow ss.old ss.new }
    ensures differ { OnOk result (HasEachSetOnce ss.new) }
    ensures count { IfOk result (λ backs. length backs ≡ length l.now.levels) }
    ensures ok { IfOk result
        (λ backs. AreBacks st.old st.new ss.old ss.new states.now
        (G.violations_of g.old st.old) l.now.levels (length l.now.levels - 1)
        (length l.now.levels) backs) }
    ensures fits { OnOk result (G.fits g.new st.new) }
    ensures labels { OnOk result (G.labels g.new ≡ G.labels g.old) }
    ensures same { OnOk result
        ((st : StoreState) (set pk : Items ℕ)
        → G.violations_of g.new st set pk ≡ G.violations_of g.old st set pk) }
{
    let last = l.levels.len() - 1;
    let level = l.levels.at(last);
    let first = violation_level(st, ss, level, g)?;
    let mut backs = List::new(st.alloc());
    backs.push(first)?;
    for k in 0..last {
        let before = l.levels.at(last - 1 - k);
        let next = backs.at(k);
        let back = preimage_in_level(st, ss, states, before, next)?;
        backs.push(back)?;
    }
    ss.differ();
    Ok(backs)
}
