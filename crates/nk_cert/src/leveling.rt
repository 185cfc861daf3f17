//! The levels of two policies together.
ghost use Rattle.std.specs.Prelude.{◌≡◌, ◌<◌, ◌∷◌, [], IfOk, length};
ghost use Rattle.nk_store.specs.StoreState.{IsId, Grows};
ghost use Rattle.nk_determ.specs.Sets.{SetsGrow};
ghost use Rattle.nk_determ.specs.Pairs.{AreStates};
ghost use Rattle.nk_reach.specs.Sides.{IsPropertyOfEnds};
ghost use Rattle.nk_cert.specs.Levelled.{AreSideLevels};

use crate::pairing::Both;
use nk_apply::identity;
use nk_determ::{Levels, Sets};
use nk_field::List;
use nk_reach::{OneSide, levels};
use nk_store::{Id, Store};
use std::alloc::{AllocError, Global};

/// The levels of two policies together, and the goal that they go up to.
pub struct LevelsOfBoth {
    /// The levels; they are broken where they end with a level at which one policy alone ends.
    pub levels: Levels,
    /// The goal: ends of one policy alone.
    pub goal: OneSide,
}

impl Drop for LevelsOfBoth {
    fn drop(self) {
        let Self { levels: _, goal: _ } = self;
    }
}

/// The levels of an automaton of two policies from all packets, up to an end of one of them alone. Labels below `bound` are
/// the left policy's, the others the right one's. The only error is that memory ran out.
pub fn levels_of_both(
    st: &mut Store,
    ss: &mut Sets,
    both: &Both,
    bound: usize,
) -> Result<LevelsOfBoth, AllocError>
    requires states { AreStates st.old both.now.states }
    requires start { 0 < length both.now.states }
    requires left { IsId st.old both.now.left }
    requires right { IsId st.old both.now.right }
    ensures grows { Grows st.old st.new }
    ensures sets { SetsGrow ss.old ss.new }
    ensures ok { IfOk result
        (λ l. AreSideLevels st.old both.now.states both.now.left both.now.right bound st.new ss.new
        l.goal.ends l.levels.levels l.levels.broken) }
    ensures goal { IfOk result (λ l. IsPropertyOfEnds st.new l.goal.ends l.goal.seen.entries) }
{
    levels_of_states(st, ss, both.states.as_slice(), both.left, both.right, bound)
}

/// The levels of these states from all packets, up to an end of one policy alone; `left` and `right` are the diagrams of both
/// starts. Labels below `bound` are the left policy's, the others the right one's.
fn levels_of_states(
    st: &mut Store,
    ss: &mut Sets,
    states: &[Id],
    left: Id,
    right: Id,
    bound: usize,
) -> Result<LevelsOfBoth, AllocError>
    requires states { AreStates st.old states.now }
    requires start { 0 < length states.now }
    requires left { IsId st.old left }
    requires right { IsId st.old right }
    ensures grows { Grows st.old st.new }
    ensures sets { SetsGrow ss.old ss.new }
    ensures ok { IfOk result
        (λ l. AreSideLevels st.old states.now left right bound st.new ss.new l.goal.ends
        l.levels.levels l.levels.broken) }
    ensures goal { IfOk result (λ l. IsPropertyOfEnds st.new l.goal.ends l.goal.seen.entries) }
{
    let mut goal = OneSide::new(st, states, left, right, bound)?;
    let from = identity(st)?;
    let s = ss.intern(start_alone(st.alloc())?)?;
    st.laws();
    let lv = levels(st, ss, states, s, from, &mut goal)?;
    Ok(LevelsOfBoth { levels: lv, goal })
}

/// The labels of the set that has the start alone: 0, the start's label. The only error is that memory ran out.
pub fn start_alone(alloc: Global) -> Result<List<u64>, AllocError>
    ensures { IfOk result (λ ls. ls ≡ 0 ∷ []) }
{
    let mut ls = List::new(alloc);
    ls.push(0)?;
    Ok(ls)
}
