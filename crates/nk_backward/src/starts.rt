//! The packets that start a history which breaks a goal.
ghost use Rattle.std.specs.Prelude.{◌≡◌, ℕ, ◌<◌, ◌≤◌, [], false, IfOk, IfSome, OnOk, length, slice_index_or, List as Items};
ghost use Rattle.nk_store.specs.StoreState.{StoreState, Grows};
ghost use Rattle.nk_sets.specs.PacketSets.{IsSet};
ghost use Rattle.nk_determ.specs.Sets.{SetsGrow};
ghost use Rattle.nk_determ.specs.Pairs.{AreStates, EachPair, IsPair, Once};
ghost use Rattle.nk_determ.specs.Levels.{AreLevels};
ghost use Rattle.nk_goal.specs.Entries.{HaveSets};
ghost use Rattle.nk_witness.specs.Finds.{first_set, first_packets};
ghost use Rattle.nk_backward.specs.Transitions.{OutsSuitStore};
ghost use Rattle.nk_backward.specs.Predecessors.{ArePredecessors};
ghost use Rattle.nk_backward.specs.CounterexampleStarts.{AreCounterexampleStarts, LeadToSide, StandUnder};

use crate::closure::close_back;
use crate::predecessors::Predecessors;
use crate::transitions::{Graph, graph_of};
use crate::violations::violations;
use nk_apply::{both, empty};
use nk_determ::{Levels, SetId, Sets};
use nk_goal::{Entries, Goal};
use nk_store::{Id, Store};
use nk_witness::Side;
use std::alloc::AllocError;

/// The packets that start a history which breaks a goal, by the side of the violation that ends it.
#[derive(Drop)]
pub struct CounterexampleStarts {
    /// Those of the left or only side.
    pub left: Id,
    /// Those of the right side.
    pub right: Id,
}

/// The packets that start a history which breaks a goal, exactly: backward reachability from all violations. The levels are
/// those of these states to their end. The only error is that memory ran out.
pub fn counterexample_starts<G: Goal>(
    st: &mut Store,
    ss: &mut Sets,
    states: &[Id],
    l: &Levels,
    g: &mut G,
) -> Result<CounterexampleStarts, AllocError>
    requires fits { G.fits g.old st.old }
    requires labels { length states.now ≤ G.labels g.old }
    requires states { AreStates st.old states.now }
    requires levels { AreLevels st.old st.old ss.old states.now (first_set l.now.levels)
        (first_packets l.now.levels) (λ set pk. []) l.now.levels false }
    ensures grows { Grows st.old st.new }
    ensures sets { SetsGrow ss.old ss.new }
    ensures left { IfOk result
        (λ r. AreCounterexampleStarts st.old states.now
        (slice_index_or ss.old (first_set l.now.levels) [])
        (first_packets l.now.levels) (G.violations_of g.old st.old) 0 st.new r.left) }
    ensures right { IfOk result
        (λ r. AreCounterexampleStarts st.old states.now
        (slice_index_or ss.old (first_set l.now.levels) [])
        (first_packets l.now.levels) (G.violations_of g.old st.old) 1 st.new r.right) }
{
    let graph = graph_of(st, ss, states, l)?;
    let (s, x) = first_entry(l);
    let mut pre = None;
    let left = starts_of(st, ss, &graph, &mut pre, s, x, g, Side::Left)?;
    let right = starts_of(st, ss, &graph, &mut pre, s, x, g, Side::Right)?;
    Ok(CounterexampleStarts { left, right })
}

/// The set that levels start from, with its packets.
fn first_entry(l: &Levels) -> (SetId, Id)
    requires levels { 0 < length l.now.levels }
    requires entries { 0 < length (slice_index_or l.now.levels 0 []) }
    ensures set { result.0 ≡ first_set l.now.levels }
    ensures packets { result.1 ≡ first_packets l.now.levels }
{
    *l.levels.at(0).at(0)
}

/// Those of some packets under a set from where transitions lead to a violation of the side.
fn starts_of<G: Goal>(
    st: &mut Store,
    ss: &Sets,
    graph: &Graph,
    pre: &mut Option<Predecessors>,
    s: SetId,
    x: Id,
    g: &mut G,
    side: Side,
) -> Result<Id, AllocError>
    requires fits { G.fits g.old st.old }
    requires entries { EachPair (IsPair st.old ss.now (G.labels g.old)) graph.now.entries }
    requires suits_store { OutsSuitStore st.old graph.now.transitions }
    requires pre { IfSome pre.old
        (λ p. ArePredecessors st.old graph.now.transitions p.places p.into.entries) }
    requires packets { IsSet st.old x }
    ensures grows { Grows st.old st.new }
    ensures pre { OnOk result
        (IfSome pre.new (λ p.
        ArePredecessors st.new graph.now.transitions p.places p.into.entries)) }
    ensures ok { IfOk result
        (λ r. LeadToSide st.old ss.now graph.now.transitions graph.now.entries
        (G.violations_of g.old st.old) side s x st.new r) }
    ensures fits { OnOk result (G.fits g.new st.new) }
    ensures labels { OnOk result (G.labels g.new ≡ G.labels g.old) }
    ensures same { OnOk result
        ((st : StoreState) (set pk : Items ℕ)
        → G.violations_of g.new st set pk ≡ G.violations_of g.old st set pk) }
{
    let goal = violations(st, ss, &graph.entries, g, side)?;
    let back = close_back(st, &graph.transitions, pre, goal)?;
    let r = packets_under(st, &back, s, x)?;
    Ok(r)
}

/// Those of some packets that stand under a set.
fn packets_under(st: &mut Store, back: &Entries, s: SetId, x: Id) -> Result<Id, AllocError>
    requires back { HaveSets st.old back.now }
    requires once { Once back.now }
    requires packets { IsSet st.old x }
    ensures grows { Grows st.old st.new }
    ensures ok { IfOk result (λ r. StandUnder st.old back.now s x st.new r) }
{
    match back.packets_of_set(s) {
        Some(y) => {
            let r = both(st, y, x)?;
            Ok(r)
        }
        None => {
            let none = empty(st)?;
            Ok(none)
        }
    }
}
