//! The states of an automaton with each label twice.
ghost use Rattle.std.specs.Prelude.{◌≡◌, ◌+◌, ◌-◌, ◌<◌, ◌^◌, ℕ, Some, None, IfOk, OnOk, length, slice_index_or};
ghost use Rattle.nk_store.specs.StoreState.{IsId, look, Grows, HasLeaves};
ghost use Rattle.nk_determ.specs.Targets.{retargeted};
ghost use Rattle.nk_determ.specs.Pairs.{AreStates};
ghost use Rattle.nk_merge.specs.DisjointCopies.{again, AreDisjointCopies, IsDisjointCopy, AreMadeBy};

use nk_apply::{Memo, known};
use nk_determ::retarget;
use nk_field::List;
use nk_reach::OneSide;
use nk_store::{Id, Store};
use std::alloc::{AllocError, Global};

/// An automaton's states with each label twice, so that two sets of labels can be followed side by side.
#[derive(Drop)]
pub struct DisjointCopy {
    /// The states, and after them for each label again a state that does what the label's does, but to labels that are marked
    /// again: numbered on after the last one.
    pub rows: List<Id>,
    /// Ends of one copy alone: the left side has the labels as they are, the right side those marked again.
    pub goal: OneSide,
}

impl DisjointCopy {
    /// The states of an automaton with each label twice; the state of the start is at place 0. The only error is that memory
    /// ran out.
    pub fn new(st: &mut Store, states: &[Id]) -> Result<DisjointCopy, AllocError>
        requires states { AreStates st.old states.now }
        requires some { 0 < length states.now }
        requires few { length states.now + length states.now < 2 ^ 64 }
        ensures grows { Grows st.old st.new }
        ensures ok { IfOk result (λ t. IsDisjointCopy st.new states.now t) }
    {
        let rows = rows_twice(st, states)?;
        let start = states[0];
        let goal = OneSide::new(st, rows.as_slice(), start, start, states.len())?;
        Ok(DisjointCopy { rows, goal })
    }
}

/// The states, and after them each but the first again, its labels marked again.
fn rows_twice(st: &mut Store, states: &[Id]) -> Result<List<Id>, AllocError>
    requires states { AreStates st.old states.now }
    requires some { 0 < length states.now }
    requires few { length states.now + length states.now < 2 ^ 64 }
    ensures grows { Grows st.old st.new }
    ensures ok { IfOk result (λ rows. AreDisjointCopies st.new states.now rows) }
{
    let table = again_table(st.alloc(), states.len())?;
    let rows = rows_by(st, states, table.as_slice())?;
    Ok(rows)
}

/// The states, and after them each but the first again, its labels marked again by this table.
fn rows_by(st: &mut Store, states: &[Id], table: &[Option<u64>]) -> Result<List<Id>, AllocError>
    requires states { AreStates st.old states.now }
    requires some { 0 < length states.now }
    requires table { (t : ℕ) → t < length states.now
        → slice_index_or table.now t None ≡ Some (again (length states.now - 1) t) }
    ensures grows { Grows st.old st.new }
    ensures ok { IfOk result (λ rows. AreDisjointCopies st.new states.now rows) }
{
    let alloc = st.alloc();
    let mut made = Memo::new(alloc);
    let mut rows = List::from_vec(Vec::from_slice(alloc, states)?);
    for i in 1..states.len() {
        let row = again_once(st, &mut made, states[i], table)?;
        rows.push(row)?;
    }
    Ok(rows)
}

/// A state with its labels by the table, which is looked up where it was made before.
fn again_once(
    st: &mut Store,
    made: &mut Memo<Id>,
    state: Id,
    table: &[Option<u64>],
) -> Result<Id, AllocError>
    requires state { IsId st.old state }
    requires made { AreMadeBy st.old table.now made.old }
    ensures grows { Grows st.old st.new }
    ensures ok { IfOk result
        (λ r. HasLeaves st.new r (λ pk. retargeted table.now (look st.old state pk))) }
    ensures made { OnOk result (AreMadeBy st.new table.now made.new) }
{
    if let Some(r) = known(made, state) {
        return Ok(r);
    }
    let r = retarget(st, state, table)?;
    made.insert(state, r)?;
    Ok(r)
}

/// For each label of so many states its number when it is marked again.
fn again_table(alloc: Global, count: usize) -> Result<List<Option<u64>>, AllocError>
    requires some { 0 < count }
    requires few { count + count < 2 ^ 64 }
    ensures { IfOk result (λ table. (t : ℕ) → t < count
        → slice_index_or table t None ≡ Some (again (count - 1) t)) }
{
    let mut table = List::new(alloc);
    table.push(Some(0))?;
    for l in 1..count {
        table.push(Some((l + (count - 1)) as u64))?;
    }
    Ok(table)
}
