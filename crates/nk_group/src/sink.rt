//! What takes tables as they are made.
ghost use Rattle.std.specs.Prelude.{◌≡◌, ◌++◌, ◌∷◌, [], ℕ, IfOk, OnOk};
ghost use Rattle.nk_group.specs.TableOf.{grouped_table};

use crate::group_rows;
use nk_extract::RowSink;
use nk_field::{Fid, List};
use nk_store::Out;
use nk_table::{Plain, Table};
use std::alloc::{AllocError, Global};
use std::mem::replace;

/// What takes tables, one after the other, and of each table one row after the other, so that neither need be kept.
pub trait TableSink: RowSink {
    ghost use Rattle.std.specs.Prelude.{List, ℕ};
    ghost use Rattle.nk_table.specs.declared.Plain.{Plain};
    ghost use Rattle.nk_table.specs.declared.Table.{Table};

    /// Between the first state and the second these tables were taken, in this order.
    ghost takes: { Self → List Table → Self → Type 0 };

    /// Between the first state and the second the table of this switch was begun.
    ghost begins: { Self → ℕ → Self → Type 0 };

    /// Begins the table of a switch. The only error is that memory ran out; nothing is said of what was taken then.
    fn begin(&mut self, switch: u16) -> Result<(), AllocError>
        ensures { OnOk result (begins self.old switch self.new) };

    /// Ends the table that was begun last: it has the rows that were put since then, and their groups. The only error is that
    /// memory ran out; nothing is said of what was taken then.
    fn end(&mut self) -> Result<(), AllocError>
        ensures { (s t : Self) (sw : ℕ) (rows : List Plain) → begins s sw t
            → Self.puts t rows self.old
            → OnOk result (takes s (grouped_table sw rows ∷ []) self.new) };

    /// Between a state and itself none were taken.
    ghost none: { (s : Self) → takes s [] s };

    /// What was taken up to a state and from there on was taken in all.
    ghost joined: { (s t u : Self) (before more : List Table) → takes s before t → takes t more u → takes s (before ++ more) u };
}

/// Tables that are kept, after what stands before them, and the rows of one that isn't whole yet.
#[derive(Drop)]
pub struct TableList {
    /// The whole tables.
    pub tables: List<Table>,
    /// The switch of the next table.
    pub switch: u16,
    /// The rows of the next table.
    pub rows: Vec<Plain>,
}

impl TableList {
    /// No table yet.
    pub fn new(alloc: Global) -> TableList
        ensures tables { result.tables ≡ [] }
        ensures rows { result.rows.items ≡ [] }
    {
        TableList {
            tables: List::new(alloc),
            switch: 0,
            rows: Vec::new(alloc),
        }
    }

    /// The whole tables.
    pub fn into_tables(self) -> List<Table>
        ensures { result ≡ self.tables }
    {
        let TableList {
            tables,
            switch: _,
            rows: _,
        } = self;
        tables
    }
}

impl RowSink for TableList {
    ghost use Rattle.std.proofs.lemmas.List.{append-nil, append_assoc};
    ghost use Rattle.std.proofs.Common.{refl, sym, ap, ◌∙◌};

    ghost puts = { λ s rows t. (t.tables ≡ s.tables) × (t.switch ≡ s.switch) × (t.rows.items ≡ s.rows.items ++ rows) };

    fn put_row(
        &mut self,
        priority: u16,
        before: &[(Fid, u64, u8)],
        tag: (Fid, u64, u8),
        after: &[(Fid, u64, u8)],
        outs: &[Out],
    ) -> Result<(), AllocError> {
        self.rows.put_row(priority, before, tag, after, outs)
    }

    ghost no_rows = { λ s. (refl, refl, sym (append-nil s.rows.items)) };

    ghost more_rows = { λ s t u rows more put then.
        (then.0 ∙ put.0, then.1 ∙ put.1, then.2 ∙ ap (λ l. l ++ more) put.2 ∙ append_assoc s.rows.items rows more) };
}

impl TableSink for TableList {
    ghost use Rattle.std.proofs.lemmas.List.{append-nil, append_assoc};
    ghost use Rattle.std.proofs.Common.{sym, ap, ◌∙◌};

    ghost takes = { λ s tables t. t.tables ≡ s.tables ++ tables };

    ghost begins = { λ s sw t. (t.tables ≡ s.tables) × (t.switch ≡ sw) × (t.rows.items ≡ []) };

    fn begin(&mut self, switch: u16) -> Result<(), AllocError> {
        self.switch = switch;
        self.rows = Vec::new(self.tables.alloc());
        Ok(())
    }

    fn end(&mut self) -> Result<(), AllocError> {
        let alloc = self.tables.alloc();
        let plain = replace(&mut self.rows, Vec::new(alloc));
        let table = grouped(alloc, self.switch, plain)?;
        self.tables.push(table)
    }

    ghost none = { λ s. sym (append-nil s.tables) };

    ghost joined = { λ s t u before more taken then. then ∙ ap (λ l. l ++ more) taken ∙ append_assoc s.tables before more };
}

/// The table of these rows.
fn grouped(alloc: Global, switch: u16, plain: Vec<Plain>) -> Result<Table, AllocError>
    ensures { IfOk result (λ t. t ≡ grouped_table switch plain.items) }
{
    let (rows, groups) = group_rows(alloc, plain)?;
    Ok(Table {
        switch,
        groups: List::from_vec(groups),
        rows: List::from_vec(rows),
    })
}
