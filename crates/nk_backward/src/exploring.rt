//! All set states and packets that are visited.
ghost use Rattle.std.specs.Prelude.{◌≡◌, ◌<◌, ◌≤◌, [], refl, false, IfOk, length, slice_index_or};
ghost use Rattle.nk_store.specs.StoreState.{Grows};
ghost use Rattle.nk_apply.proofs.Members.{contains_has};
ghost use Rattle.nk_sets.specs.PacketSets.{IsSet};
ghost use Rattle.nk_determ.specs.Sets.{SetsGrow};
ghost use Rattle.nk_determ.specs.Pairs.{AreStates, AreLabelsBelow};
ghost use Rattle.nk_determ.specs.Levels.{AreLevels};

use nk_apply::empty;
use nk_determ::{Levels, SetId, Sets};
use nk_goal::Goal;
use nk_reach::levels;
use nk_store::{Id, Store};
use std::alloc::AllocError;

/// The goal that nothing breaks.
#[derive(Drop)]
struct NoViolation {
    /// How many labels there are.
    labels: usize,
}

impl Goal for NoViolation {
    ghost fits = { λ g st. Unit {0} };

    ghost labels = { λ g. g.labels };

    ghost violations_of = { λ g st set pk. [] };

    ghost fits_on = { λ g old new fits grows. tt };

    ghost violations_grow = { λ g old new set pk fits grows places. refl };

    ghost sided = { λ g st set pk o fits whole among. absurd (contains_has [] o among) };

    fn bad(&mut self, st: &mut Store, ss: &Sets, s: SetId) -> Result<Id, AllocError> {
        empty(st)
    }
}

/// All levels of an automaton's states, from a set state at some packets until a level visits nothing new. The only error is
/// that memory ran out; then the store and the sets have only grown.
pub fn explored(
    st: &mut Store,
    ss: &mut Sets,
    states: &[Id],
    s: SetId,
    start: Id,
) -> Result<Levels, AllocError>
    requires states { AreStates st.old states.now }
    requires set { s < length ss.old }
    requires places { AreLabelsBelow (length states.now) (slice_index_or ss.old s []) }
    requires packets { IsSet st.old start }
    ensures grows { Grows st.old st.new }
    ensures sets { SetsGrow ss.old ss.new }
    ensures ok { IfOk result
        (λ l. AreLevels st.old st.new ss.new states.now s start (λ set pk. []) l.levels false) }
{
    let mut g = NoViolation {
        labels: states.len(),
    };
    let l = levels(st, ss, states, s, start, &mut g)?;
    Ok(l)
}
