//! Rows, buckets, groups and tables once more.
ghost use Rattle.std.specs.Prelude.{◌≡◌, IfOk};

use crate::{Bucket, Group, Row, Table, Tables, Target};
use nk_field::List;
use std::alloc::{AllocError, Global};

impl Bucket {
    /// A copy of the bucket. The only error is that memory ran out.
    pub fn copy(&self) -> Result<Bucket, AllocError>
        ensures { IfOk result (λ b. b ≡ self.now) }
    {
        let sets = self.sets.copy()?;
        Ok(Bucket {
            sets,
            exit: self.exit,
        })
    }
}

impl Target {
    /// A copy of the target. The only error is that memory ran out.
    pub fn copy(&self) -> Result<Target, AllocError>
        ensures { IfOk result (λ t. t ≡ self.now) }
    {
        match self {
            Target::Bucket(bucket) => Ok(Target::Bucket(bucket.copy()?)),
            Target::Group(number) => Ok(Target::Group(*number)),
            Target::Discard => Ok(Target::Discard),
        }
    }
}

impl Row {
    /// A copy of the row. The only error is that memory ran out.
    pub fn copy(&self) -> Result<Row, AllocError>
        ensures { IfOk result (λ r. r ≡ self.now) }
    {
        let matches = self.matches.copy()?;
        let target = self.target.copy()?;
        Ok(Row {
            priority: self.priority,
            matches,
            target,
        })
    }
}

impl Group {
    /// A copy of the group. The only error is that memory ran out.
    pub fn copy(&self) -> Result<Group, AllocError>
        ensures { IfOk result (λ g. g ≡ self.now) }
    {
        let buckets = buckets(self.buckets.alloc(), self.buckets.as_slice())?;
        Ok(Group {
            number: self.number,
            buckets,
        })
    }
}

impl Table {
    /// A copy of the table. The only error is that memory ran out.
    pub fn copy(&self) -> Result<Table, AllocError>
        ensures { IfOk result (λ t. t ≡ self.now) }
    {
        let groups = groups(self.groups.alloc(), self.groups.as_slice())?;
        let rows = rows(self.rows.alloc(), self.rows.as_slice())?;
        Ok(Table {
            switch: self.switch,
            groups,
            rows,
        })
    }
}

impl Tables {
    /// A copy of the tables. The only error is that memory ran out.
    pub fn copy(&self) -> Result<Tables, AllocError>
        ensures { IfOk result (λ t. t ≡ self.now) }
    {
        let fields = self.fields.copy()?;
        let topo = self.topo.copy()?;
        let tables = tables(self.tables.alloc(), self.tables.as_slice())?;
        Ok(Tables {
            fields,
            topo,
            tables,
        })
    }
}

/// A copy of each bucket, in order.
fn buckets(alloc: Global, all: &[Bucket]) -> Result<List<Bucket>, AllocError>
    ensures { IfOk result (λ l. l ≡ all.now) }
{
    let mut copies = List::new(alloc);
    for bucket in all {
        copies.push(bucket.copy()?)?;
    }
    Ok(copies)
}

/// A copy of each group, in order.
fn groups(alloc: Global, all: &[Group]) -> Result<List<Group>, AllocError>
    ensures { IfOk result (λ l. l ≡ all.now) }
{
    let mut copies = List::new(alloc);
    for group in all {
        copies.push(group.copy()?)?;
    }
    Ok(copies)
}

/// A copy of each row, in order.
fn rows(alloc: Global, all: &[Row]) -> Result<List<Row>, AllocError>
    ensures { IfOk result (λ l. l ≡ all.now) }
{
    let mut copies = List::new(alloc);
    for row in all {
        copies.push(row.copy()?)?;
    }
    Ok(copies)
}

/// A copy of the tables. The only error is that memory ran out.
fn tables(alloc: Global, all: &[Table]) -> Result<List<Table>, AllocError>
    ensures { IfOk result (λ l. l ≡ all.now) }
{
    let mut copies = List::new(alloc);
    for table in all {
        copies.push(table.copy()?)?;
    }
    Ok(copies)
}
