//! The text of tables, which takes them row by row.
ghost use Rattle.std.specs.Prelude.{◌≡◌, [], IfOk};
ghost use Rattle.nk_tabtext.specs.Written.{HasWritten};

use indexmap::IndexSet;
use nk_compile::{RowSink, TableSink};
use nk_field::{Fid, Fields, List};
use nk_group::{group_target, groups_from};
use nk_store::Out;
use nk_table::Bucket;
use nk_tabtext::TableWriter;
use nk_topo::Topo;
use std::alloc::{AllocError, Global};
use std::mem::replace;

/// A text of tables, and the bucket lists of the groups of the table that was begun last.
#[derive(Drop)]
pub(crate) struct TextSink<'a> {
    /// The text.
    pub(crate) writer: TableWriter<'a>,
    alloc: Global,
    lists: IndexSet<List<Bucket>>,
}

impl<'a> TextSink<'a> {
    /// A text with its first lines and no table yet, and no list of buckets. The only error is that memory
    /// ran out.
    pub(crate) fn new(alloc: Global, fields: &'a Fields, topo: &Topo) -> Result<Self, AllocError>
        ensures written { IfOk result (λ s. HasWritten fields.now topo.now [] s.writer) }
        ensures lists { IfOk result (λ s. s.lists.keys ≡ []) }
    {
        let writer = TableWriter::new(alloc, fields, topo)?;
        Ok(TextSink {
            writer,
            alloc,
            lists: IndexSet::new(alloc),
        })
    }
}

impl<'a> RowSink for TextSink<'a> {
    ghost use Rattle.nk_compile_commands.specs.RowsPut.{ArePut, none_put, joined_put};

    ghost puts = { λ s rows t. ArePut s.writer s.lists.keys rows t.writer t.lists.keys };

    fn put_row(
        &mut self,
        priority: u16,
        before: &[(Fid, u64, u8)],
        tag: (Fid, u64, u8),
        after: &[(Fid, u64, u8)],
        outs: &[Out],
    ) -> Result<(), AllocError> {
        let target = group_target(self.alloc, &mut self.lists, tag.0, outs)?;
        self.writer.put_row(priority, before, tag, after, &target)?;
        Ok(())
    }

    ghost no_rows = { λ s. none_put s.writer s.lists.keys };

    ghost more_rows = { λ s t u rows more. joined_put s.writer t.writer u.writer s.lists.keys t.lists.keys u.lists.keys rows more };
}

impl<'a> TableSink for TextSink<'a> {
    ghost use Rattle.std.specs.Prelude.{List, ◌++◌, [], ◌≡◌};
    ghost use Rattle.nk_field.specs.Packet.{FieldTable};
    ghost use Rattle.nk_topo.specs.Topology.{Topology};
    ghost use Rattle.nk_table.specs.declared.Table.{Table};
    ghost use Rattle.nk_tabtext.specs.Written.{HasWritten, IsWriting};
    ghost use Rattle.nk_compile_commands.specs.Handed.{none_written, joined_written};

    ghost takes = { λ s more t. (fields : FieldTable) (topo : Topology) (before : List Table) → HasWritten fields topo before s.writer
        → HasWritten fields topo (before ++ more) t.writer };

    ghost begins = { λ s sw t. (t.lists.keys ≡ []) × ((fields : FieldTable) (topo : Topology) (before : List Table)
        → HasWritten fields topo before s.writer → IsWriting fields topo before sw [] t.writer) };

    fn begin(&mut self, switch: u16) -> Result<(), AllocError> {
        self.lists = IndexSet::new(self.alloc);
        self.writer.begin_table(switch)?;
        Ok(())
    }

    fn end(&mut self) -> Result<(), AllocError> {
        let lists = replace(&mut self.lists, IndexSet::new(self.alloc));
        let groups = groups_from(self.alloc, lists)?;
        self.writer.end_table(groups.as_slice())?;
        Ok(())
    }

    ghost none = { λ s. none_written s.writer };

    ghost joined = { λ s t u before more. joined_written s.writer t.writer u.writer before more };
}
