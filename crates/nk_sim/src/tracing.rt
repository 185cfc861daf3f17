//! Histories of a packet that is followed through tables.
ghost use Rattle.std.specs.Prelude.{◌≡◌, ◌+◌, ◌++◌, ℕ, ◌∷◌, [], length, IfOk, List as Items};
ghost use Rattle.nk_sim.specs.Emitted.{Finds};
ghost use Rattle.nk_sim.specs.Flights.{HaveTrails, IsAt, IsSortedFrom};
ghost use Rattle.nk_sim.specs.Traces.{IsTrace, histories_after};

use crate::finder::Finder;
use crate::transit::{Crossing, Flying, cross, leave, send};
use nk_field::{History, List, Packet};
use nk_table::Tables;
use std::alloc::{AllocError, Global};

/// What is seen of a packet that is followed through tables.
#[derive(Drop)]
pub struct Traced {
    /// The histories that leave: fewer crossings first, then by records in turn, then by the last packet.
    pub histories: List<History>,
    /// How many copies would make one crossing more.
    pub flying: u64,
}

/// A packet on its way: the crossings of its copies, the copies that wait, and the histories that left.
#[derive(Drop)]
struct State {
    crossings: Vec<Crossing>,
    waiting: Vec<Flying>,
    histories: Vec<History>,
}

/// The histories that leave after exactly `k` crossings. The only error is that memory ran out.
pub fn runs(alloc: Global, t: &Tables, k: u64, p: &Packet) -> Result<Vec<History>, AllocError>
    ensures { IfOk result (λ left. left.items ≡ histories_after t.now k p.now) }
{
    let finder = Finder::new(alloc, t)?;
    let mut crossings = Vec::new(alloc);
    let mut waiting = start(alloc, p)?;
    for _step in 0..k {
        if waiting.is_empty() {
            return Ok(Vec::new(alloc));
        }
        let sent = send(alloc, &finder, t, waiting.as_slice())?;
        waiting = cross(alloc, t, &mut crossings, sent.as_slice())?;
    }
    let sent = send(alloc, &finder, t, waiting.as_slice())?;
    leave(alloc, t, crossings.as_slice(), k, sent.as_slice())
}

/// The histories that leave after at most `hops` crossings, in order, and how many copies would make one more. A history
/// that comes twice stands twice. The only error is that memory ran out.
pub fn trace(alloc: Global, t: &Tables, hops: u64, p: &Packet) -> Result<Traced, AllocError>
    ensures { IfOk result (λ traced. IsTrace t.now hops p.now traced) }
{
    let finder = Finder::new(alloc, t)?;
    let mut state = State {
        crossings: Vec::new(alloc),
        waiting: start(alloc, p)?,
        histories: Vec::new(alloc),
    };
    for k in 0..hops {
        if state.waiting.is_empty() {
            return Ok(ended(state));
        }
        state = step(alloc, &finder, t, k, state)?;
    }
    Ok(ended(step(alloc, &finder, t, hops, state)?))
}

/// The one copy that waits at the start.
fn start(alloc: Global, p: &Packet) -> Result<Vec<Flying>, AllocError>
    ensures { IfOk result (λ waiting. waiting.items ≡ record { last = 0; packet = p.now } ∷ []) }
{
    let mut waiting = Vec::new(alloc);
    waiting.push(Flying {
        last: 0,
        packet: *p,
    })?;
    Ok(waiting)
}

/// One crossing more: the histories that leave, and the copies after the links.
fn step(
    alloc: Global,
    finder: &Finder,
    t: &Tables,
    k: u64,
    state: State,
) -> Result<State, AllocError>
    requires finder { Finds finder.now t.now.tables }
    requires trails { HaveTrails state.crossings.items k state.waiting.items }
    ensures { IfOk result (λ next. (pk : Items ℕ) → IsAt t.now pk k state
        → IsAt t.now pk (k + 1) next) }
{
    let mut crossings = state.crossings;
    let sent = send(alloc, finder, t, state.waiting.as_slice())?;
    let left = leave(alloc, t, crossings.as_slice(), k, sent.as_slice())?;
    let histories = with_sorted(state.histories, left)?;
    let waiting = cross(alloc, t, &mut crossings, sent.as_slice())?;
    Ok(State {
        crossings,
        waiting,
        histories,
    })
}

/// The histories so far, and then these in order.
fn with_sorted(histories: Vec<History>, left: Vec<History>) -> Result<Vec<History>, AllocError>
    ensures { IfOk result (λ all. (later : Items History) × (all.items ≡ histories.items ++ later)
        × IsSortedFrom left.items later) }
{
    let mut histories = histories;
    let mut later = sorted(left)?;
    histories.append(&mut later)?;
    Ok(histories)
}

/// These histories in order.
fn sorted(left: Vec<History>) -> Result<Vec<History>, AllocError>
    ensures { IfOk result (λ later. IsSortedFrom left.items later.items) }
{
    let mut left = left;
    left.sort()?;
    Ok(left)
}

/// What was seen.
fn ended(state: State) -> Traced
    ensures histories { result.histories ≡ state.histories.items }
    ensures flying { result.flying ≡ length state.waiting.items }
{
    Traced {
        flying: state.waiting.len() as u64,
        histories: List::from_vec(state.histories),
    }
}
