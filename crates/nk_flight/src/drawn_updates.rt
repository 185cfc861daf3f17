//! Updates in which draws say what happens.
ghost use Rattle.std.specs.Prelude.{◌≡◌, ◌<◌, ◌+◌, ◌%◌, ◌⊎◌, [], length, slice_index, All, IfOk, OnOk};
ghost use Rattle.nk_field.specs.Lists.{IsWithoutDoubles};
ghost use Rattle.nk_flight.specs.Updates.{stages_of, switches_in, at_the_start, planned, state_in, Becomes};
ghost use Rattle.nk_flight.specs.UpdateDraws.{those_that_may, after_turns, turned, Wait};

use crate::flight::places_from;
use crate::updating::UpdateFlight;
use crate::waiting::Waiting;
use nk_field::Packet;
use nk_random::next_draw;
use nk_update::Plan;
use std::alloc::{AllocError, Global};

/// The update after so many turns: in each the next draw x from the seed takes action number x mod n, counted from 0, of
/// these n: the packet is injected; copy 0, 1 and so on is handled; the next plan step is done at each switch that may,
/// switches ascending. The only error is that memory ran out.
pub fn update(
    alloc: Global,
    plan: &Plan,
    packet: &Packet,
    seed: u64,
    turns: u64,
) -> Result<UpdateFlight, AllocError>
    ensures stages { IfOk result (λ flight. flight.stages ≡ stages_of plan.now) }
    ensures state { IfOk result (λ flight. state_in flight
        ≡ after_turns (stages_of plan.now) seed turns packet.now
        (at_the_start (stages_of plan.now))) }
{
    let switches = plan.topo.switches();
    let mut flight = UpdateFlight::new(alloc, plan)?;
    let mut waiting = all_wait(alloc, switches)?;
    let mut draw = seed;
    for _turn in 0..turns {
        draw = next_draw(draw);
        turn(alloc, &mut flight, &mut waiting, switches, packet, draw)?;
    }
    Ok(flight)
}

/// The turn of a draw. Which switches wait for the step of the present stage is kept along.
fn turn(
    alloc: Global,
    flight: &mut UpdateFlight,
    waiting: &mut Waiting,
    switches: &[u16],
    packet: &Packet,
    draw: u64,
) -> Result<(), AllocError>
    requires switches { switches.now ≡ switches_in flight.old.stages }
    requires distinct { IsWithoutDoubles switches.now }
    requires wait { Wait flight.old.stages (state_in flight.old) waiting.old }
    ensures flight { OnOk result
        (Becomes flight.old flight.new
        (turned draw flight.old.stages packet.now (state_in flight.old))) }
    ensures wait { OnOk result (Wait flight.new.stages (state_in flight.new) waiting.new) }
{
    let copies = flight.len();
    let may = that_may(flight, waiting, switches);
    let at = drawn_place(draw, copies, may);
    if at == 0 {
        let _number = flight.inject(packet)?;
        Ok(())
    } else if at <= copies {
        flight.step(at - 1)
    } else {
        plan_at(alloc, flight, waiting, switches, at - 1 - copies)
    }
}

/// The place of an action at a draw: that of the injection is 0, copies and then switches that may stand after it.
fn drawn_place(draw: u64, copies: usize, may: usize) -> usize
    ensures { result ≡ draw % (1 + (copies + may)) }
{
    (u128::from(draw) % (1 + (copies as u128 + may as u128))) as usize
}

/// How many switches may do their next plan step: those that wait for it, or none.
fn that_may(flight: &UpdateFlight, waiting: &Waiting, switches: &[u16]) -> usize
    requires switches { switches.now ≡ switches_in flight.now.stages }
    requires wait { Wait flight.now.stages (state_in flight.now) waiting.now }
    ensures many { result ≡ length (those_that_may flight.now.stages (state_in flight.now)) }
    ensures which { (those_that_may flight.now.stages (state_in flight.now) ≡ waiting.now)
        ⊎ (those_that_may flight.now.stages (state_in flight.now) ≡ []) }
{
    are_numbers(switches);
    if waiting.len() == 0 {
        return 0;
    }
    if flight.may_plan(switch_at(waiting, 0)) {
        waiting.len()
    } else {
        0
    }
}

/// Does the next plan step of the switch at a place of those that wait, all of which may. It waits no more then; where none
/// is left, all wait for the step after.
fn plan_at(
    alloc: Global,
    flight: &mut UpdateFlight,
    waiting: &mut Waiting,
    switches: &[u16],
    place: usize,
) -> Result<(), AllocError>
    requires switches { switches.now ≡ switches_in flight.old.stages }
    requires distinct { IsWithoutDoubles switches.now }
    requires wait { Wait flight.old.stages (state_in flight.old) waiting.old }
    requires may { those_that_may flight.old.stages (state_in flight.old) ≡ waiting.old }
    requires there { place < length waiting.old }
    ensures flight { OnOk result (Becomes flight.old flight.new
        (planned flight.old.stages (slice_index waiting.old place) (state_in flight.old))) }
    ensures wait { OnOk result (Wait flight.new.stages (state_in flight.new) waiting.new) }
{
    are_numbers(switches);
    flight.plan_step(switch_at(waiting, place));
    waiting.take(place);
    if waiting.len() == 0 {
        *waiting = all_wait(alloc, switches)?;
    }
    Ok(())
}

/// All switches wait.
fn all_wait(alloc: Global, switches: &[u16]) -> Result<Waiting, AllocError>
    ensures { IfOk result (λ waiting. waiting ≡ switches.now) }
{
    let mut waiting = Waiting::new(alloc);
    for switch in switches {
        waiting.append(places_from(alloc, usize::from(*switch), 1)?)?;
    }
    Ok(waiting)
}

/// The switch at a place of those that wait.
fn switch_at(waiting: &Waiting, place: usize) -> u16
    requires there { place < length waiting.now }
    requires numbers { All (λ n. n < 65536) waiting.now }
    ensures { result ≡ slice_index waiting.now place }
{
    waiting.at(place) as u16
}

/// Switches have numbers of 16 bits.
fn are_numbers(switches: &[u16])
    ensures { All (λ n. n < 65536) switches.now }
{}
