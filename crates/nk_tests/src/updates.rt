//! Two switches that go over from a policy over their link to one that sends packets back where they came in.
use crate::programs::declared;
use nk_compile::compile_pair;
use nk_field::{Fid, Packet};
use nk_flight::{UpdateFlight, Version};
use nk_names::Program;
use nk_update::{Plan, plan};
use std::alloc::{AllocError, Global};
use std::test::Fail;

/// The old policy and the new one.
const PAIR: &[u8] = b"field vlan 1 tag vlan switch 1 ports 1,2 switch 2 ports 1,2 link 1:2 -> 2:1\n\
let old = sw=1;pt=1;pt:=2;1:2=>2:1;pt:=2 let new = sw=1;pt=1";

/// The packet that comes in.
fn entering() -> Packet {
    let mut packet = Packet::zero();
    packet.put(Fid::SWITCH, 1);
    packet.put(Fid::PORT, 1);
    packet
}

/// What is done next, or that a switch may not do its next plan step.
enum Next {
    /// A packet comes in.
    Injects,
    /// The copy at the front is handled.
    Handles,
    /// A switch does its next plan step.
    Plans(u16),
    /// A switch waits.
    Waits(u16),
}

/// Two packets cross by the old tables while the first plan steps are done, and hold up the third ones.
const TWO_BY_THE_OLD: [Next; 12] = [
    Next::Injects,
    Next::Injects,
    Next::Plans(1),
    Next::Waits(1),
    Next::Plans(2),
    Next::Handles,
    Next::Handles,
    Next::Plans(1),
    Next::Plans(2),
    Next::Waits(1),
    Next::Handles,
    Next::Handles,
];

/// The last plan steps are done, and a third packet goes by the new tables.
const THE_THIRD_BY_THE_NEW: [Next; 5] = [
    Next::Plans(2),
    Next::Plans(1),
    Next::Waits(1),
    Next::Injects,
    Next::Handles,
];

/// The next plan step of a switch, if it may; whether it might.
fn plans(flight: &mut UpdateFlight, switch: u16) -> bool {
    if flight.may_plan(switch) {
        flight.plan_step(switch);
        return true;
    }
    false
}

/// Whether the copy at the front was handled.
fn handles(flight: &mut UpdateFlight) -> Result<bool, AllocError> {
    if flight.len() == 0 {
        return Ok(false);
    }
    flight.step(0)?;
    Ok(true)
}

/// A packet comes in.
fn injects(flight: &mut UpdateFlight) -> Result<bool, AllocError> {
    let _number = flight.inject(&entering())?;
    Ok(true)
}

/// Whether it was done, or is so.
fn goes(flight: &mut UpdateFlight, next: &Next) -> Result<bool, AllocError> {
    match next {
        Next::Injects => injects(flight),
        Next::Handles => handles(flight),
        Next::Plans(switch) => Ok(plans(flight, *switch)),
        Next::Waits(switch) => Ok(!flight.may_plan(*switch)),
    }
}

/// Whether all of them were done, or are so, and so many histories have left then, while nothing flies.
fn all_go(flight: &mut UpdateFlight, all: &[Next], left: usize) -> Result<bool, AllocError> {
    for next in all {
        if !goes(flight, next)? {
            return Ok(false);
        }
    }
    Ok(flight.left().len() == left && flight.flying()?.is_empty())
}

/// Whether the first two packets went by the old tables, and the third one by the new ones, which left it where it was.
fn has_versions(flight: &UpdateFlight) -> bool {
    if flight.injected() != 3 || flight.left().len() != 3 {
        return false;
    }
    flight.version(1) == Some(Version::Old)
        && flight.version(2) == Some(Version::Old)
        && flight.version(3) == Some(Version::New)
        && flight.left()[2].history.last == entering()
}

/// Whether all of it is as worked out, in a flight where nothing has happened yet.
fn goes_as_worked_out(flight: &mut UpdateFlight) -> Result<bool, AllocError> {
    let two = all_go(flight, &TWO_BY_THE_OLD, 2)?;
    let third = all_go(flight, &THE_THIRD_BY_THE_NEW, 3)?;
    Ok(two && third && has_versions(flight) && flight.steps_done() == 6)
}

/// Whether all of it is as worked out for the plan.
fn is_worked_out(alloc: Global, plan: &Plan) -> Result<bool, AllocError> {
    let mut flight = UpdateFlight::new(alloc, plan)?;
    goes_as_worked_out(&mut flight)
}

/// The plan from the old policy of a program to the new one.
fn plan_of(alloc: Global, program: &Program) -> Result<Plan, Fail> {
    let pair = compile_pair(alloc, program, "old", "new")?;
    Ok(plan(alloc, &pair.old, &pair.new, pair.old_tags)?)
}

/// The plan.
fn planned(alloc: Global) -> Result<Plan, Fail> {
    let program = declared(alloc, PAIR)?;
    plan_of(alloc, &program)
}

/// Whether the update goes as worked out.
fn each_goes_by_one(alloc: Global) -> Result<bool, Fail> {
    let plan = planned(alloc)?;
    Ok(is_worked_out(alloc, &plan)?)
}

#[test]
fn each_packet_goes_by_one_of_the_tables(rt: HostRuntime) -> Result<(), Fail> {
    assert!(rt; each_goes_by_one(rt.alloc())?);
    Ok(())
}
