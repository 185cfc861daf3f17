//! The tables of OpenFlow 1.3 switches as values: rows, buckets and groups, and which row acts on a packet.
#![tactic(auto)]

mod copies;
pub mod laws;
mod search;

use nk_field::{Act, Fid, Fields, List};
use nk_topo::Topo;
pub use search::{acting_row, digits_at, lookup, rows_at};

/// Where a bucket sends a packet.
#[derive(Clone, Copy, PartialEq, Eq, Hash, Debug)]
pub enum Exit {
    /// Back to the port where it came in.
    Back,
    /// To this port; nothing is sent where the packet came in there.
    Port(u16),
}

/// What happens to one copy of a packet: assignments, then an exit.
#[derive(PartialEq, Eq, Hash, Drop)]
pub struct Bucket {
    /// The assignments.
    pub sets: Act,
    /// Where the copy is sent.
    pub exit: Exit,
}

/// What a row does with a packet.
#[derive(Drop)]
pub enum Target {
    /// One bucket.
    Bucket(Bucket),
    /// The group with this number: each of its buckets on a copy of its own.
    Group(u64),
    /// Drops the packet.
    Discard,
}

/// A row of a table.
#[derive(Drop)]
pub struct Row {
    /// Of the rows that match a packet, the one with the highest priority acts.
    pub priority: u16,
    /// Each a field, a value and a length: the first `length` binary digits of the packet's value must be those of the
    /// value. A length of all the field's digits asks for exactly the value.
    pub matches: List<(Fid, u64, u8)>,
    /// What the row does.
    pub target: Target,
}

/// A row that lists its buckets in place of a group's number.
#[derive(Drop)]
pub struct Plain {
    /// Of the rows that match a packet, the one with the highest priority acts.
    pub priority: u16,
    /// Each a field, a value and a length: the first `length` binary digits of the packet's value must be those of the
    /// value. A length of all the field's digits asks for exactly the value.
    pub matches: List<(Fid, u64, u8)>,
    /// The buckets, each on a copy of its own; none drops the packet.
    pub buckets: List<Bucket>,
}

/// A group of type all: each bucket runs on a copy of its own.
#[derive(Drop)]
pub struct Group {
    /// The number by which rows of the same switch name it.
    pub number: u64,
    /// Its buckets.
    pub buckets: List<Bucket>,
}

/// The table of one switch.
pub struct Table {
    /// The switch.
    pub switch: u16,
    /// Its groups.
    pub groups: List<Group>,
    /// Its rows.
    pub rows: List<Row>,
}

impl Drop for Table {
    fn drop(self) {
        let Self {
            switch: _,
            groups: _,
            rows: _,
        } = self;
    }
}

/// The tables of all switches, with the fields and the topology.
pub struct Tables {
    /// The fields.
    pub fields: Fields,
    /// The switches and links.
    pub topo: Topo,
    /// The table of each switch.
    pub tables: List<Table>,
}

impl Drop for Tables {
    fn drop(self) {
        let Self {
            fields: _,
            topo: _,
            tables: _,
        } = self;
    }
}
