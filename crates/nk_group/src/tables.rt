//! The tables of switches, by the diagrams of their tags.
ghost use Rattle.std.specs.Prelude.{◌≡◌, ◌∷◌, [], ℕ, Some, All, List as Items, OnOk, take};
ghost use Rattle.nk_table.specs.declared.Plain.{Plain};
ghost use Rattle.nk_table.specs.declared.Table.{Table};
ghost use Rattle.nk_store.specs.StoreState.{Grows};
ghost use Rattle.nk_extract.specs.RowsOf.{IsFrame};
ghost use Rattle.nk_extract.specs.RuleTree.{rows_for};
ghost use Rattle.nk_group.specs.Matched.{Matched};
ghost use Rattle.nk_group.specs.Made.{TagTree, IsPrintableState, ArePrintableStates, IsTreeBy, AreRowsBy, IsTableBy};

use crate::sink::TableSink;
use crate::switch_tags::{SwitchStates, TagState};
use nk_determ::retarget;
use nk_extract::{RowSink, rows_to};
use nk_store::Store;
use std::alloc::AllocError;

/// Puts the rows of one tag at a switch.
fn tag_rows<S: RowSink>(
    st: &mut Store,
    table: &[Option<u64>],
    sw: u16,
    state: TagState,
    sink: &mut S,
) -> Result<(), AllocError>
    requires frame { (tag : ℕ) × (st.old.tag ≡ Some tag) × IsFrame st.old st.old.width tag }
    requires printable { (tag : ℕ) → st.old.tag ≡ Some tag → IsPrintableState st.old tag sw state }
    ensures grows { Grows st.old st.new }
    ensures rows { OnOk result
        ((rows : Items Plain) × S.puts sink.old rows sink.new
        × ((tag : ℕ) → st.old.tag ≡ Some tag → (e : TagTree)
        × IsTreeBy st.old table.now tag sw state e
        × (rows ≡ rows_for (take st.old.width st.old.maxes) tag e.tag e.tree))) }
{
    let d = retarget(st, state.diagram, table)?;
    rows_to(st, d, sw, state.tag, sink)
}

/// Puts the rows of all tags of a switch, in the order of the tags.
fn switch_rows<S: RowSink>(
    st: &mut Store,
    table: &[Option<u64>],
    s: &SwitchStates,
    sink: &mut S,
) -> Result<(), AllocError>
    requires frame { (tag : ℕ) × (st.old.tag ≡ Some tag) × IsFrame st.old st.old.width tag }
    requires printable { (tag : ℕ) → st.old.tag ≡ Some tag → ArePrintableStates st.old tag s.now }
    ensures grows { Grows st.old st.new }
    ensures rows { OnOk result
        ((rows : Items Plain) × S.puts sink.old rows sink.new × ((tag : ℕ) → st.old.tag ≡ Some tag →
        AreRowsBy st.old table.now tag s.now.switch s.now.tag_states rows)) }
{
    for state in s.tag_states.as_slice() {
        tag_rows(st, table, s.switch, *state, sink)?;
    }
    Ok(())
}

/// Hands over the table of a switch.
fn switch_table<S: TableSink>(
    st: &mut Store,
    table: &[Option<u64>],
    s: &SwitchStates,
    sink: &mut S,
) -> Result<(), AllocError>
    requires frame { (tag : ℕ) × (st.old.tag ≡ Some tag) × IsFrame st.old st.old.width tag }
    requires printable { (tag : ℕ) → st.old.tag ≡ Some tag → ArePrintableStates st.old tag s.now }
    ensures grows { Grows st.old st.new }
    ensures table { OnOk result ((t : Table) × S.takes sink.old (t ∷ []) sink.new
        × ((tag : ℕ) → st.old.tag ≡ Some tag → IsTableBy st.old table.now tag s.now t)) }
{
    sink.begin(s.switch)?;
    switch_rows(st, table, s, sink)?;
    sink.end()
}

/// The table of each switch, one after the other.
pub fn all_tables<S: TableSink>(
    st: &mut Store,
    table: &[Option<u64>],
    all: &[SwitchStates],
    sink: &mut S,
) -> Result<(), AllocError>
    requires frame { (tag : ℕ) × (st.old.tag ≡ Some tag) × IsFrame st.old st.old.width tag }
    requires printable { (tag : ℕ) → st.old.tag ≡ Some tag
        → All (ArePrintableStates st.old tag) all.now }
    ensures grows { Grows st.old st.new }
    ensures tables { OnOk result ((ts : Items Table) × S.takes sink.old ts sink.new
        × ((tag : ℕ) → st.old.tag ≡ Some tag
        → Matched (IsTableBy st.old table.now tag) all.now ts)) }
{
    for s in all {
        switch_table(st, table, s, sink)?;
    }
    Ok(())
}
