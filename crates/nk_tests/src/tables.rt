//! Tables of a text: read, copied, searched and followed.
use nk_field::{Fid, Packet};
use nk_sim::{emit, runs};
use nk_table::{Tables, lookup};
use nk_tabtext::read_tables;
use std::alloc::{AllocError, Global};
use std::test::Fail;

/// One switch with three rows and a group.
const ONE: &[u8] = b"tables 2 field dst 3 field vlan 1 tag vlan switch 1 ports 1,2 table 1
group 7 = [dst:=1 out 2]
row 2 : pt=1 -> [dst:=1 out 2]
row 3 : dst=2/1 -> group 7
row 3 : pt=2 -> drop
";

/// A copy of the tables of the text.
fn copied(alloc: Global) -> Result<Tables, Fail> {
    let tables = read_tables(alloc, ONE)?;
    Ok(tables.copy()?)
}

/// The packet at a port of the switch, with this `dst`.
fn packet(port: u64, value: u64) -> Packet {
    let mut packet = Packet::zero();
    packet.put(Fid::SWITCH, 1);
    packet.put(Fid::PORT, port);
    packet.put(Fid::new(2), value);
    packet
}

/// The port and `dst` of a packet, and the priority of the row that acts on it.
const CASES: [(u64, u64, Option<u16>); 6] = [
    (1, 0, Some(2)),
    (1, 2, Some(3)),
    (1, 3, Some(3)),
    (2, 0, Some(3)),
    (2, 2, None),
    (0, 0, None),
];

/// The priority of the row that acts on a packet at the switch.
fn acting(tables: &Tables, port: u64, value: u64) -> Option<u16> {
    match lookup(tables, 1, &packet(port, value)) {
        Some(row) => Some(row.priority),
        None => None,
    }
}

/// Whether the highest row alone acts, and none where two are as high.
fn the_highest_acts(tables: &Tables) -> bool {
    for (port, value, priority) in CASES {
        if acting(tables, port, value) != priority {
            return false;
        }
    }
    lookup(tables, 2, &Packet::zero()).is_none()
}

/// Whether the switch sends a packet with `dst` 0 from port 1 to port 2, with `dst` 1.
fn sends_on(alloc: Global, tables: &Tables) -> Result<bool, AllocError> {
    let sent = emit(alloc, tables, &packet(1, 0))?;
    Ok(sent.len() == 1 && sent[0] == packet(2, 1))
}

/// Whether that leaves there without a crossing.
fn leaves_there(alloc: Global, tables: &Tables) -> Result<bool, AllocError> {
    let left = runs(alloc, tables, 0, &packet(1, 0))?;
    Ok(left.len() == 1 && left[0].records.is_empty() && left[0].last == packet(2, 1))
}

/// Whether all of it holds of the tables.
fn do_as_written(alloc: Global) -> Result<bool, Fail> {
    let tables = copied(alloc)?;
    Ok(the_highest_acts(&tables) && sends_on(alloc, &tables)? && leaves_there(alloc, &tables)?)
}

#[test]
fn tables_do_as_written(rt: HostRuntime) -> Result<(), Fail> {
    assert!(rt; do_as_written(rt.alloc())?);
    Ok(())
}
