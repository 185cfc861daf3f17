//! The tables of all switches.
ghost use Rattle.std.specs.Prelude.{◌≡◌, ◌<◌, ◌≤◌, [], true, map, unwrap_or, vec_capacity, AllPairs, IfOk, OnErr, OnOk};
ghost use Rattle.std.specs.BTreeMap.{btree_map_len, insert_entry};
ghost use Rattle.std.specs.Ordering.{nat_cmp};
ghost use Rattle.nk_tabtext.specs.Values.{empty_table, has_key, table_for};

use nk_field::List;
use nk_table::{Group, Table};
use std::alloc::{AllocError, Global};
use std::collections::BTreeMap;

/// The tables that are written, by switch.
pub(crate) type Tabled = BTreeMap<u16, Table>;

/// The groups of a table, by number.
pub(crate) type Groups = BTreeMap<u64, Group>;

/// A table without groups and rows; it takes no memory.
pub(crate) fn empty(alloc: Global, switch: u16) -> Table
    ensures { result ≡ empty_table switch }
{
    Table {
        switch,
        groups: List::new(alloc),
        rows: List::new(alloc),
    }
}

/// The table of a switch that is taken, or an empty one.
fn or_empty(alloc: Global, table: Option<Table>, switch: u16) -> Table
    ensures { result ≡ unwrap_or table (empty_table switch) }
{
    match table {
        Some(table) => table,
        None => empty(alloc, switch),
    }
}

/// The table of each of these switches, empty where none is written.
pub(crate) fn each(
    alloc: Global,
    switches: &[u16],
    tables: Tabled,
) -> Result<List<Table>, AllocError>
    requires { AllPairs (λ p q. p < q) switches.now }
    ensures { IfOk result (λ l. l ≡ map (table_for tables.entries) switches.now) }
{
    let mut tables = tables;
    let mut all = List::new(alloc);
    for switch in switches {
        let table = tables.remove(switch);
        all.push(or_empty(alloc, table, *switch))?;
    }
    Ok(all)
}

/// An empty table of a switch, so that its own can be put in without taking memory.
pub(crate) fn make_place(alloc: Global, tables: &mut Tabled, switch: u16) -> Result<(), AllocError>
    ensures ok { OnOk result
        (tables.new.entries ≡ insert_entry nat_cmp tables.old.entries switch (empty_table switch)) }
    ensures kept { OnErr result (tables.new.entries ≡ tables.old.entries) }
{
    if tables.insert(switch, empty(alloc, switch)).is_err() {
        return Err(AllocError);
    }
    Ok(())
}

/// Puts a table in its place, where one stands.
pub(crate) fn put_table(tables: &mut Tabled, table: Table)
    requires { has_key tables.old.entries table.switch ≡ true }
    ensures { tables.new.entries ≡ insert_entry nat_cmp tables.old.entries table.switch table }
{
    match tables.insert(table.switch, table) {
        Ok(_) => (),
        Err(_) => unreachable!(),
    }
}

/// The groups of a table, in a list that has room for them. It takes no memory.
pub(crate) fn listed(groups: Groups, room: Vec<Group>) -> Vec<Group>
    requires none { room.items ≡ [] }
    requires room { btree_map_len groups ≤ vec_capacity room }
    ensures { result.items ≡ map (λ g. g.1) groups.entries }
{
    let mut groups = groups;
    let mut all = room;
    while let Some((_, group)) = groups.pop_first() {
        all.push(group).unwrap();
    }
    all
}
