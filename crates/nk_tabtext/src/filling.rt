//! The table of a switch, token by token.
ghost use Rattle.std.specs.Prelude.{◌≡◌, ◌<◌, [], length, vec_capacity, vec_len, None, OnErr, OnOk};
ghost use Rattle.nk_declare.specs.InMemory.{declared_in};
ghost use Rattle.nk_tabgrammar.specs.Machine.{TableParseReturns};
ghost use Rattle.nk_tabtext.specs.InMemory.{filling_in};
ghost use Rattle.nk_tabtext.specs.Progress.{
  StaysWithoutMemory,
  finished,
  first_filling,
  group_bucket_told,
  group_ends_told,
  group_told,
  match_length_told,
  match_name_told,
  match_value_told,
  out_back_told,
  out_port_told,
  row_told,
  row_ends,
  row_bucket_told,
  row_drop_told,
  row_group_told,
  set_name_told,
  set_value_told,
  table_told,
};

use crate::declaring::number_in;
use crate::tables::{Groups, Tabled, listed, make_place, put_table};
use crate::values::{
    check_zeros, has_field, is_matched, length_of, put, refuse_if, set_match, small,
};
use nk_declare::{Declared, field_with};
use nk_field::{Act, Fid, Fields, List};
use nk_lex::{Number, Token};
use nk_prefix::digits_of;
use nk_tabgrammar::ReadError;
use nk_table::{Bucket, Exit, Group, Row, Table, Target};
use std::alloc::{AllocError, AllocFailed, Global};
use std::collections::BTreeMap;
use std::mem::replace;

/// The groups and rows of the table that is read, and what is told so far of the group or row that is read.
pub(crate) struct Filling {
    switch: Option<u16>,
    groups: Groups,
    rows: Vec<Row>,
    number: u64,
    buckets: Vec<Bucket>,
    priority: u16,
    matches: Vec<(Fid, u64, u8)>,
    field: Fid,
    max: u64,
    value: Number,
    sets: Act,
    exit: Exit,
}

impl Drop for Filling {
    fn drop(self) {
        let Self {
            switch: _,
            groups: _,
            rows: _,
            number: _,
            buckets: _,
            priority: _,
            matches: _,
            field: _,
            max: _,
            value: _,
            sets: _,
            exit: _,
        } = self;
    }
}

/// A bucket that is whole. It takes no memory.
fn bucket_of(alloc: Global, sets: &mut Act, exit: Exit) -> Bucket
    ensures bucket { (result.sets ≡ sets.old) × (result.exit ≡ exit) }
    ensures rest { sets.new ≡ [] }
{
    let sets = replace(sets, Act::none(alloc));
    Bucket { sets, exit }
}

impl Filling {
    /// No table is read yet; it takes no memory.
    pub(crate) fn new(alloc: Global) -> Filling
        ensures { filling_in result ≡ first_filling }
    {
        Filling {
            switch: None,
            groups: BTreeMap::new(alloc),
            rows: Vec::new(alloc),
            number: 0,
            buckets: Vec::new(alloc),
            priority: 0,
            matches: Vec::new(alloc),
            field: Fid::SWITCH,
            max: 0,
            value: Number { value: 0, line: 0 },
            sets: Act::none(alloc),
            exit: Exit::Back,
        }
    }

    /// The switch of a table. The table before it is whole.
    #[inline(never)]
    pub(crate) fn table(
        &mut self,
        alloc: Global,
        said: &Declared,
        tables: &mut Tabled,
        token: &Token,
    ) -> Result<(), ReadError>
        ensures told { TableParseReturns (λ _. (filling_in self.new, tables.new.entries)) result
            (table_told (declared_in said.now) tables.old.entries (filling_in self.old) token.now) }
        ensures kept { StaysWithoutMemory result (filling_in self.old) (filling_in self.new) }
        ensures same { StaysWithoutMemory result tables.old.entries tables.new.entries }
    {
        self.finish(alloc, tables)?;
        let switch = small(number_in(token))?;
        let unknown = !said.topo.is_switch(switch);
        refuse_if(unknown || tables.contains_key(&switch), token.line)?;
        self.switch = Some(switch);
        self.groups = BTreeMap::new(alloc);
        self.rows = Vec::new(alloc);
        Ok(())
    }

    /// The table that is read, if one is, is whole, and goes among the others.
    pub(crate) fn finish(&mut self, alloc: Global, tables: &mut Tabled) -> Result<(), AllocError>
        ensures ok { OnOk result
            (tables.new.entries ≡ finished tables.old.entries (filling_in self.old)) }
        ensures rest { OnOk result
            (record (filling_in self.new) { switch = None; groups = []; rows = [] }
            ≡ record (filling_in self.old) { switch = None; groups = []; rows = [] }) }
        ensures kept { OnErr result (filling_in self.new ≡ filling_in self.old) }
        ensures same { OnErr result (tables.new.entries ≡ tables.old.entries) }
    {
        let switch = match self.switch {
            Some(switch) => switch,
            None => return Ok(()),
        };
        let room = Vec::with_capacity(alloc, self.groups.len())?;
        make_place(alloc, tables, switch)?;
        let groups = listed(replace(&mut self.groups, BTreeMap::new(alloc)), room);
        let rows = replace(&mut self.rows, Vec::new(alloc));
        let table = Table {
            switch,
            groups: List::from_vec(groups),
            rows: List::from_vec(rows),
        };
        put_table(tables, table);
        Ok(())
    }

    /// The number of a group.
    #[inline(never)]
    pub(crate) fn group(&mut self, alloc: Global, token: &Token) -> Result<(), ReadError>
        ensures told { TableParseReturns (λ _. filling_in self.new) result
            (group_told (filling_in self.old) token.now) }
        ensures kept { StaysWithoutMemory result (filling_in self.old) (filling_in self.new) }
    {
        let number = token.value;
        refuse_if(number == 0 || self.groups.contains_key(&number), token.line)?;
        self.number = number;
        self.buckets = Vec::new(alloc);
        Ok(())
    }

    /// A bucket of the group is whole.
    #[inline(never)]
    pub(crate) fn group_bucket(&mut self, alloc: Global) -> Result<(), AllocError>
        ensures ok { OnOk result (filling_in self.new ≡ group_bucket_told (filling_in self.old)) }
        ensures kept { OnErr result (filling_in self.new ≡ filling_in self.old) }
    {
        self.buckets.reserve(1)?;
        let bucket = bucket_of(alloc, &mut self.sets, self.exit);
        self.buckets.push(bucket).unwrap();
        Ok(())
    }

    /// The group has no further bucket.
    #[inline(never)]
    pub(crate) fn group_ends(&mut self, alloc: Global) -> Result<(), AllocError>
        ensures ok { OnOk result (filling_in self.new ≡ group_ends_told (filling_in self.old)) }
        ensures kept { OnErr result (filling_in self.new ≡ filling_in self.old) }
    {
        let buckets = replace(&mut self.buckets, Vec::new(alloc));
        let group = Group {
            number: self.number,
            buckets: List::from_vec(buckets),
        };
        match self.groups.insert(self.number, group) {
            Ok(_) => Ok(()),
            Err(AllocFailed { value }) => {
                let (_, group) = value;
                let Group { number: _, buckets } = group;
                self.buckets = buckets.into_vec();
                Err(AllocError)
            }
        }
    }

    /// The name of a field that the bucket assigns.
    pub(crate) fn set_name(&mut self, fields: &Fields, token: &Token) -> Result<(), ReadError>
        ensures told { TableParseReturns (λ _. filling_in self.new) result
            (set_name_told fields.now (filling_in self.old) token.now) }
        ensures kept { StaysWithoutMemory result (filling_in self.old) (filling_in self.new) }
    {
        match field_with(fields, token.text.as_slice()) {
            Some(field) => {
                let taken = has_field(self.sets.as_slice(), field);
                refuse_if(field.place() < 2 || taken, token.line)?;
                self.field = field;
                self.max = fields.max(field);
                Ok(())
            }
            None => Err(ReadError::TableFault { line: token.line }),
        }
    }

    /// The value of the assigned field.
    #[inline(never)]
    pub(crate) fn set_value(&mut self, alloc: Global, token: &Token) -> Result<(), ReadError>
        ensures told { TableParseReturns (λ _. filling_in self.new) result
            (set_value_told (filling_in self.old) token.now) }
        ensures kept { StaysWithoutMemory result (filling_in self.old) (filling_in self.new) }
    {
        refuse_if(self.max < token.value, token.line)?;
        let set = Act::one(alloc, self.field, token.value)?;
        self.sets = self.sets.then(&set)?;
        Ok(())
    }

    /// The port to which the bucket sends.
    pub(crate) fn out_port(&mut self, token: &Token) -> Result<(), ReadError>
        ensures told { TableParseReturns (λ _. filling_in self.new) result
            (out_port_told (filling_in self.old) token.now) }
        ensures kept { StaysWithoutMemory result (filling_in self.old) (filling_in self.new) }
    {
        self.exit = Exit::Port(small(number_in(token))?);
        Ok(())
    }

    /// The bucket sends back.
    pub(crate) fn out_back(&mut self)
        ensures { filling_in self.new ≡ out_back_told (filling_in self.old) }
    {
        self.exit = Exit::Back;
    }

    /// The priority of a row.
    pub(crate) fn row(&mut self, token: &Token) -> Result<(), ReadError>
        ensures told { TableParseReturns (λ _. filling_in self.new) result
            (row_told (filling_in self.old) token.now) }
        ensures kept { StaysWithoutMemory result (filling_in self.old) (filling_in self.new) }
    {
        self.priority = small(number_in(token))?;
        Ok(())
    }

    /// The name of a field that the row matches.
    pub(crate) fn match_name(&mut self, fields: &Fields, token: &Token) -> Result<(), ReadError>
        ensures told { TableParseReturns (λ _. filling_in self.new) result
            (match_name_told fields.now (filling_in self.old) token.now) }
        ensures kept { StaysWithoutMemory result (filling_in self.old) (filling_in self.new) }
    {
        match field_with(fields, token.text.as_slice()) {
            Some(field) => {
                let taken = is_matched(self.matches.as_slice(), field);
                refuse_if(field.place() < 1 || taken, token.line)?;
                self.field = field;
                self.max = fields.max(field);
                Ok(())
            }
            None => Err(ReadError::TableFault { line: token.line }),
        }
    }

    /// The value of the matched field. The match is the exact one, unless a length follows.
    pub(crate) fn match_value(&mut self, token: &Token) -> Result<(), ReadError>
        ensures told { TableParseReturns (λ _. filling_in self.new) result
            (match_value_told (filling_in self.old) token.now) }
        ensures kept { StaysWithoutMemory result (filling_in self.old) (filling_in self.new) }
    {
        refuse_if(self.max < token.value, token.line)?;
        let exact = (self.field, token.value, digits_of(self.max));
        put(&mut self.matches, exact)?;
        self.value = number_in(token);
        Ok(())
    }

    /// How many digits of the value count.
    pub(crate) fn match_length(&mut self, version: u64, token: &Token) -> Result<(), ReadError>
        ensures told { TableParseReturns (λ _. filling_in self.new) result
            (match_length_told version (filling_in self.old) token.now) }
        ensures kept { StaysWithoutMemory result (filling_in self.old) (filling_in self.new) }
    {
        let digits = digits_of(self.max);
        let length = length_of(version, digits, number_in(token))?;
        check_zeros(digits, length, self.value)?;
        let shorter = (self.field, self.value.value, length);
        set_match(&mut self.matches, shorter);
        Ok(())
    }

    /// The row is whole, for which there is room. It takes no memory.
    #[inline(never)]
    fn put_row(&mut self, alloc: Global, target: Target)
        requires room { vec_len self.old.rows < vec_capacity self.old.rows }
        ensures { filling_in self.new ≡ row_ends (filling_in self.old) target }
    {
        let matches = replace(&mut self.matches, Vec::new(alloc));
        let row = Row {
            priority: self.priority,
            matches: List::from_vec(matches),
            target,
        };
        self.rows.push(row).unwrap();
    }

    /// The row's target is the bucket that is read, which is whole.
    #[inline(never)]
    pub(crate) fn row_bucket(&mut self, alloc: Global) -> Result<(), AllocError>
        ensures ok { OnOk result (filling_in self.new ≡ row_bucket_told (filling_in self.old)) }
        ensures kept { OnErr result (filling_in self.new ≡ filling_in self.old) }
    {
        self.rows.reserve(1)?;
        let bucket = bucket_of(alloc, &mut self.sets, self.exit);
        self.put_row(alloc, Target::Bucket(bucket));
        Ok(())
    }

    /// The row's target is a group.
    #[inline(never)]
    pub(crate) fn row_group(&mut self, alloc: Global, token: &Token) -> Result<(), ReadError>
        ensures told { TableParseReturns (λ _. filling_in self.new) result
            (row_group_told (filling_in self.old) token.now) }
        ensures kept { StaysWithoutMemory result (filling_in self.old) (filling_in self.new) }
    {
        refuse_if(!self.groups.contains_key(&token.value), token.line)?;
        self.rows.reserve(1)?;
        self.put_row(alloc, Target::Group(token.value));
        Ok(())
    }

    /// The row drops.
    #[inline(never)]
    pub(crate) fn row_drop(&mut self, alloc: Global) -> Result<(), AllocError>
        ensures ok { OnOk result (filling_in self.new ≡ row_drop_told (filling_in self.old)) }
        ensures kept { OnErr result (filling_in self.new ≡ filling_in self.old) }
    {
        self.rows.reserve(1)?;
        self.put_row(alloc, Target::Discard);
        Ok(())
    }
}
