//! Flights in which draws say which copy is handled.
ghost use Rattle.std.specs.Prelude.{◌≡◌, IfOk};
ghost use Rattle.nk_flight.specs.Draws as draws;
ghost use Rattle.nk_flight.specs.Flights.{injected, nothing_in_flight};

use crate::flight::Flight;
use nk_field::Packet;
use nk_random::next_draw;
use nk_table::Tables;
use std::alloc::{AllocError, Global};

/// The flight of one packet after so many steps: at each the next draw from the seed, modulo the number of copies in
/// flight, says which copy is handled. Once nothing flies nothing happens. The only error is that memory ran out.
pub fn fly(
    alloc: Global,
    t: &Tables,
    p: &Packet,
    seed: u64,
    steps: u64,
) -> Result<Flight, AllocError>
    ensures { IfOk result (λ flight. flight
        ≡ draws.after_draws seed steps (injected p.now (nothing_in_flight t.now))) }
{
    let mut flight = Flight::new(alloc, t)?;
    let _number = flight.inject(p)?;
    let mut draw = seed;
    for _step in 0..steps {
        if flight.len() == 0 {
            return Ok(flight);
        }
        draw = next_draw(draw);
        flight.step((draw % flight.len() as u64) as usize)?;
    }
    Ok(flight)
}
