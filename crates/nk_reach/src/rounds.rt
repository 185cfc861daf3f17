//! One round of the levels.
ghost use Rattle.std.specs.Prelude.{IfOk, length};
ghost use Rattle.nk_store.specs.StoreState.{Grows};
ghost use Rattle.nk_determ.specs.Sets.{SetsGrow};
ghost use Rattle.nk_determ.specs.Pairs.{AreStates, ArePairs, Once};
ghost use Rattle.nk_goal.specs.Entries.{HaveSets};
ghost use Rattle.nk_reach.specs.Rounds.{IsNextLevel, IsFresh};

use crate::follow::follow_level;
use nk_determ::{SetId, Sets};
use nk_field::List;
use nk_goal::Entries;
use nk_sets::is_empty;
use nk_store::{Id, Store};
use std::alloc::AllocError;

/// The next level: what the last one leads to and no level has visited. The only error is that memory
/// ran out.
pub fn next_level(
    st: &mut Store,
    ss: &mut Sets,
    states: &[Id],
    visited: &Entries,
    last: &List<(SetId, Id)>,
) -> Result<List<(SetId, Id)>, AllocError>
    requires states { AreStates st.old states.now }
    requires visited { ArePairs st.old ss.old (length states.now) visited.now }
    requires last { ArePairs st.old ss.old (length states.now) last.now }
    ensures grows { Grows st.old st.new }
    ensures sets { SetsGrow ss.old ss.new }
    ensures ok { IfOk result
        (λ level. IsNextLevel st.old ss.old states.now visited.now last.now st.new ss.new
        level) }
{
    let found = follow_level(st, ss, states, last)?;
    let raw = found.into_list();
    let level = fresh(st, visited, &raw)?;
    Ok(level)
}

/// The packets of a level that were not visited, where there are any.
fn fresh(
    st: &mut Store,
    visited: &Entries,
    raw: &List<(SetId, Id)>,
) -> Result<List<(SetId, Id)>, AllocError>
    requires visited { HaveSets st.old visited.now }
    requires once { Once visited.now }
    requires raw { HaveSets st.old raw.now }
    requires apart { Once raw.now }
    ensures grows { Grows st.old st.new }
    ensures ok { IfOk result (λ level. IsFresh st.old visited.now raw.now st.new level) }
{
    let mut level = List::new(st.alloc());
    for k in 0..raw.len() {
        let (t, y) = *raw.at(k);
        let rest = visited.unvisited(st, t, y)?;
        if !is_empty(st, rest) {
            level.push((t, rest))?;
        }
    }
    Ok(level)
}
