//! Two packets at a switch that sends three copies: one along a link back to it, and two alike off it.
use nk_field::{Fid, History, List, Packet};
use nk_flight::{Flight, Left};
use nk_table::Tables;
use nk_tabtext::read_tables;
use std::alloc::{AllocError, Global};
use std::test::Fail;

/// The switch and its table.
const LOOPED: &[u8] = b"tables 1 field vlan 7 tag vlan switch 1 ports 1,2,9 link 1:2 -> 1:1
table 1 group 1 = [vlan:=5 out 2] [vlan:=5 out 9] [vlan:=5 out 9] row 0 : -> group 1
";

/// A packet at a port of the switch, with a tag.
fn at(port: u64, tag: u64) -> Packet {
    let mut packet = Packet::zero();
    packet.put(Fid::SWITCH, 1);
    packet.put(Fid::PORT, port);
    packet.put(Fid::new(2), tag);
    packet
}

/// Whether the copies that fly are of the second packet and then of the first, each at the link's end.
fn fly_in_turn(flight: &Flight) -> Result<bool, AllocError> {
    let flying = flight.flying()?;
    Ok(
        flying.len() == 2
            && flying[0].number == 2
            && flying[1].number == 1
            && flying.iter().all(|c| c.packet == at(1, 5)),
    )
}

/// Whether both have left that the second packet's copy sends off the switch.
fn are_of_the_second(left: &[Left]) -> bool {
    left.len() == 2
        && left
            .iter()
            .all(|l| l.number == 2 && l.history.records.is_empty())
}

/// Whether two packets come in with their numbers.
fn two_come_in(flight: &mut Flight) -> Result<bool, AllocError> {
    let (first, second) = (flight.inject(&at(1, 0))?, flight.inject(&at(1, 0))?);
    Ok((first, second, flight.injected()) == (1, 2, 2))
}

/// Whether the copy at a place is handled.
fn handles(flight: &mut Flight, place: usize) -> Result<bool, AllocError> {
    if place >= flight.len() {
        return Ok(false);
    }
    flight.step(place)?;
    Ok(true)
}

/// Whether of two packets the second one's copy is handled first, and its copies leave with its number.
fn goes_in_any_order(flight: &mut Flight) -> Result<bool, AllocError> {
    if !two_come_in(flight)? || !handles(flight, 1)? {
        return Ok(false);
    }
    let is_second = are_of_the_second(flight.left());
    Ok(is_second && handles(flight, 0)? && fly_in_turn(flight)?)
}

/// What leaves after one crossing.
fn after_the_link(alloc: Global) -> Result<History, AllocError> {
    let mut records = List::new(alloc);
    records.push(at(2, 0))?;
    records.push(at(1, 0))?;
    Ok(History {
        records,
        last: at(9, 5),
    })
}

/// Whether the last one of four left after the link, and its packet was the first one.
fn is_after_the_link(alloc: Global, left: &[Left]) -> Result<bool, AllocError> {
    let wanted = after_the_link(alloc)?;
    Ok(left.len() == 4 && left[3].number == 1 && left[3].history == wanted)
}

/// Whether one copy flies, with the records of two crossings.
fn has_crossed_twice(flight: &Flight) -> Result<bool, AllocError> {
    let flying = flight.flying()?;
    Ok(flying.len() == 1 && flying[0].records.len() == 4)
}

/// Whether what leaves after the link has the records of the crossing, and what goes on has those of two.
fn keeps_records(alloc: Global, flight: &mut Flight) -> Result<bool, AllocError> {
    let _number = flight.inject(&at(1, 0))?;
    let has_stepped = handles(flight, 0)? && handles(flight, 0)?;
    Ok(has_stepped && is_after_the_link(alloc, flight.left())? && has_crossed_twice(flight)?)
}

/// Whether the first holds of a flight through these tables.
fn any_order(alloc: Global, t: &Tables) -> Result<bool, AllocError> {
    let mut flight = Flight::new(alloc, t)?;
    goes_in_any_order(&mut flight)
}

/// Whether the second does.
fn records(alloc: Global, t: &Tables) -> Result<bool, AllocError> {
    let mut flight = Flight::new(alloc, t)?;
    keeps_records(alloc, &mut flight)
}

/// Whether both hold of flights through the switch.
fn hold(alloc: Global) -> Result<bool, Fail> {
    let t = read_tables(alloc, LOOPED)?;
    Ok(any_order(alloc, &t)? && records(alloc, &t)?)
}

#[test]
fn copies_are_handled_in_any_order_and_keep_their_records(rt: HostRuntime) -> Result<(), Fail> {
    assert!(rt; hold(rt.alloc())?);
    Ok(())
}
