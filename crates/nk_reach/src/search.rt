//! Levels.
ghost use Rattle.std.specs.Prelude.{◌≡◌, ℕ, ◌<◌, ◌≤◌, [], ◌∷◌, IfOk, OnOk, length, slice_index_or, List as Items};
ghost use Rattle.nk_store.specs.StoreState.{StoreState, Grows};
ghost use Rattle.nk_sets.specs.PacketSets.{IsSet};
ghost use Rattle.nk_determ.specs.Sets.{SetsGrow};
ghost use Rattle.nk_determ.specs.Pairs.{AreStates, AreLabelsBelow};
ghost use Rattle.nk_determ.specs.Levels.{AreLevels};

use crate::rounds::next_level;
use nk_determ::{Levels, SetId, Sets};
use nk_field::List;
use nk_goal::{Entries, Goal, any_violation};
use nk_store::{Id, Store};
use std::alloc::{AllocError, Global};

/// The levels of an automaton's states, from the set state `s` at the packets `start`, up to the
/// first level with a violation of the goal, or until a level visits nothing new. The only error is
/// that memory ran out; then the store and the sets have only grown, and nothing is said of the goal.
pub fn levels<G: Goal>(
    st: &mut Store,
    ss: &mut Sets,
    states: &[Id],
    s: SetId,
    start: Id,
    g: &mut G,
) -> Result<Levels, AllocError>
    requires fits { G.fits g.old st.old }
    requires labels { length states.now ≤ G.labels g.old }
    requires states { AreStates st.old states.now }
    requires set { s < length ss.old }
    requires places { AreLabelsBelow (length states.now) (slice_index_or ss.old s []) }
    requires packets { IsSet st.old start }
    ensures grows { Grows st.old st.new }
    ensures sets { SetsGrow ss.old ss.new }
    ensures ok { IfOk result
        (λ l. AreLevels st.old st.new ss.new states.now s start
        (G.violations_of g.old st.old) l.levels l.broken) }
    ensures fits { OnOk result (G.fits g.new st.new) }
    ensures labels { OnOk result (G.labels g.new ≡ G.labels g.old) }
    ensures same { OnOk result
        ((st : StoreState) (set pk : Items ℕ)
        → G.violations_of g.new st set pk ≡ G.violations_of g.old st set pk) }
{
    let mut visited = Entries::new(st.alloc());
    let mut all = List::new(st.alloc());
    let broken = put_levels(st, ss, states, s, start, &mut visited, &mut all, g)?;
    Ok(Levels::new(all, broken))
}

/// Puts the levels into `all`, and what they visit into `visited`, both without an entry before. Whether the last level has a
/// violation.
fn put_levels<G: Goal>(
    st: &mut Store,
    ss: &mut Sets,
    states: &[Id],
    s: SetId,
    start: Id,
    visited: &mut Entries,
    all: &mut List<List<(SetId, Id)>>,
    g: &mut G,
) -> Result<bool, AllocError>
    requires fits { G.fits g.old st.old }
    requires labels { length states.now ≤ G.labels g.old }
    requires states { AreStates st.old states.now }
    requires set { s < length ss.old }
    requires places { AreLabelsBelow (length states.now) (slice_index_or ss.old s []) }
    requires packets { IsSet st.old start }
    requires none_visited { visited.old ≡ [] }
    requires no_level { all.old ≡ [] }
    ensures grows { Grows st.old st.new }
    ensures sets { SetsGrow ss.old ss.new }
    ensures ok { IfOk result
        (λ b. AreLevels st.old st.new ss.new states.now s start
        (G.violations_of g.old st.old) all.new b) }
    ensures fits { OnOk result (G.fits g.new st.new) }
    ensures labels { OnOk result (G.labels g.new ≡ G.labels g.old) }
    ensures same { OnOk result
        ((st : StoreState) (set pk : Items ℕ)
        → G.violations_of g.new st set pk ≡ G.violations_of g.old st set pk) }
{
    visited.insert(s, start)?;
    all.push(first_level(st.alloc(), s, start)?)?;
    loop {
        let last = all.len() - 1;
        if any_violation(st, ss, all.at(last), g)? {
            return Ok(true);
        }
        let level = next_level(st, ss, states, visited, all.at(last))?;
        if level.len() == 0 {
            return Ok(false);
        }
        visited.add_level(st, &level)?;
        all.push(level)?;
    }
}

/// The set state and the packets that the levels start from.
fn first_level(alloc: Global, s: SetId, start: Id) -> Result<List<(SetId, Id)>, AllocError>
    ensures { IfOk result (λ l. l ≡ (s, start) ∷ []) }
{
    let mut level = List::new(alloc);
    level.push((s, start))?;
    Ok(level)
}
