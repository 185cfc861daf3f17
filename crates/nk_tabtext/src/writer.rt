//! The text of tables, row by row.
ghost use Rattle.std.specs.Prelude.{◌≡◌, ◌≤◌, ℕ, ◌++◌, ◌∷◌, ◌||◌, not, [], List, map, length, take, drop, IfOk, OnOk};
ghost use Rattle.std.specs.List.{flat_map, list_any};
ghost use Rattle.nk_field.specs.Packet.{FieldTable};
ghost use Rattle.nk_topo.specs.Topology.{Topology, IsTopology};
ghost use Rattle.nk_table.specs.declared.Table.{Table};
ghost use Rattle.nk_table.specs.declared.Row.{Row};
ghost use Rattle.nk_tabtext.specs.Text.{group_text, have_prefix, is_exact, table_bytes, version_text};
ghost use Rattle.nk_tabtext.specs.Written.{HasWritten, IsWriting, version_with};

use crate::last_row::LastRow;
use crate::{head, rules};
use nk_field::{Fid, Fields};
use nk_table::{Group, Table, Target};
use nk_topo::Topo;
use std::alloc::{AllocError, Global};

/// A text of tables that is written row by row, so that nobody has to keep rows. Each table is begun, its rows are put, and it is
/// ended with its groups. The tables are to come in the order of the topology's switches, one for each; then the text is that of
/// all of them. Groups, matches and assignments are written as they stand. The only error is that memory ran out; the text may end
/// anywhere then.
#[derive(Drop)]
pub struct TableWriter<'a> {
    fields: &'a Fields,
    text: Vec<u8>,
    /// Whether some match so far is a prefix.
    prefixes: bool,
    /// Where the rows of the table that was begun last begin in the text.
    start: usize,
    /// What is remembered of the row that was put last.
    last: LastRow,
}

/// The place of the version's digit in the first line.
const DIGIT: usize = 7;

/// Makes a text of the first version one of the second, whose number has one digit too.
fn set_second(text: &mut Vec<u8>)
    ensures { (rest : List ℕ) → text.old.items ≡ version_text 1 ++ rest
        → text.new.items ≡ version_text 2 ++ rest }
{
    if let Some(digit) = text.get_mut(DIGIT) {
        *digit = b'2';
    }
}

impl<'a> TableWriter<'a> {
    /// A text with its first lines and no table yet.
    pub fn new(alloc: Global, fields: &'a Fields, topo: &Topo) -> Result<Self, AllocError>
        ensures { IfOk result (λ w. HasWritten fields.now topo.now [] w) }
    {
        let mut text = Vec::new(alloc);
        head::head(&mut text, 1, fields, topo)?;
        let last = LastRow::new(alloc);
        Ok(TableWriter {
            fields,
            text,
            prefixes: false,
            start: 0,
            last,
        })
    }

    /// Begins the table of one more switch: its rows come one by one, and then its groups.
    pub fn begin_table(&mut self, switch: u16) -> Result<(), AllocError>
        ensures { (fields : FieldTable) (topo : Topology) (tables : List Table)
            → HasWritten fields topo tables self.old
            → OnOk result (IsWriting fields topo tables switch [] self.new) }
    {
        rules::switch_line(&mut self.text, switch)?;
        self.start = self.text.len();
        Ok(())
    }

    /// Puts one more row of the table that was begun: its priority, its matches, of which one stands by itself between those before
    /// it and those after it, and what it does.
    pub fn put_row(
        &mut self,
        priority: u16,
        before: &[(Fid, u64, u8)],
        between: (Fid, u64, u8),
        after: &[(Fid, u64, u8)],
        target: &Target,
    ) -> Result<(), AllocError>
        ensures { (fields : FieldTable) (topo : Topology) (tables : List Table) (sw : ℕ)
            (rows : List Row)
            → IsWriting fields topo tables sw rows self.old
            → OnOk result (IsWriting fields topo tables sw
            (rows ++ record {
              priority = priority;
              matches = before.now ++ between ∷ after.now;
              target = target.now;
            } ∷ []) self.new) }
    {
        self.tell_matches(before, &between, after);
        self.last.matches.set(self.fields, before, &between, after)?;
        rules::row_front(&mut self.text, priority, self.last.matches.text.as_slice())?;
        self.last
            .bucket
            .put_end(&mut self.text, self.fields, target)?;
        Ok(())
    }

    /// The first line tells of the prefixes of one more row.
    fn tell_matches(
        &mut self,
        before: &[(Fid, u64, u8)],
        between: &(Fid, u64, u8),
        after: &[(Fid, u64, u8)],
    )
        ensures fields { self.new.fields.now ≡ self.old.fields.now }
        ensures start { self.new.start ≡ self.old.start }
        ensures last { self.new.last ≡ self.old.last }
        ensures prefixes { self.new.prefixes
            ≡ (self.old.prefixes || list_any (λ m. not (is_exact self.old.fields.now m))
            (before.now ++ between.now ∷ after.now)) }
        ensures text { (rest : List ℕ)
            → self.old.text.items ≡ version_text (version_with self.old.prefixes) ++ rest
            → self.new.text.items ≡ version_text (version_with self.new.prefixes) ++ rest }
    {
        if !self.prefixes && rules::some_parted_prefix(self.fields, before, between, after) {
            self.prefixes = true;
            set_second(&mut self.text);
        }
    }

    /// Ends the table that was begun, with its groups.
    pub fn end_table(&mut self, groups: &[Group]) -> Result<(), AllocError>
        ensures { (fields : FieldTable) (topo : Topology) (tables : List Table) (sw : ℕ)
            (rows : List Row)
            → IsWriting fields topo tables sw rows self.old → OnOk result (HasWritten fields topo
            (tables ++ record { switch = sw; groups = groups.now; rows = rows } ∷ []) self.new) }
    {
        if groups.is_empty() {
            return Ok(());
        }
        self.put_groups(groups)
    }

    /// Puts groups in front of the rows of the table that was begun.
    fn put_groups(&mut self, groups: &[Group]) -> Result<(), AllocError>
        ensures fields { OnOk result (self.new.fields.now ≡ self.old.fields.now) }
        ensures prefixes { OnOk result (self.new.prefixes ≡ self.old.prefixes) }
        ensures last { OnOk result (self.new.last ≡ self.old.last) }
        ensures text { self.old.start ≤ length self.old.text.items
            → OnOk result (self.new.text.items ≡ take self.old.start self.old.text.items
            ++ flat_map (group_text self.old.fields.now) groups.now
            ++ drop self.old.start self.old.text.items) }
    {
        let place = self.start.min(self.text.len());
        let rows = self.text.split_off(place)?;
        rules::groups(&mut self.text, self.fields, groups)?;
        self.text.extend_from_slice(rows.as_slice())?;
        Ok(())
    }

    /// The whole text.
    pub fn end(self) -> Vec<u8>
        ensures { (fields : FieldTable) (topo : Topology) (tables : List Table)
            → HasWritten fields topo tables self.entry → IsTopology topo
            → map (λ t. t.switch) tables ≡ map (λ s. s.switch) topo.switches
            → result.items ≡ table_bytes
            (record { fields = fields; topo = topo; tables = tables }) }
    {
        let TableWriter {
            fields: _,
            text,
            prefixes: _,
            start: _,
            last: _,
        } = self;
        text
    }
}
