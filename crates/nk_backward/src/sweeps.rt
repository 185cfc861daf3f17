//! Entries taken back along all transitions in turn, some times over.
ghost use Rattle.std.specs.Prelude.{◌≡◌, ◌&&◌, ℕ, [], true, Some, IfOk, OnOk, length};
ghost use Rattle.nk_store.specs.StoreState.{Grows};
ghost use Rattle.nk_sets.specs.PacketSets.{is_in, IsSet};
ghost use Rattle.nk_sets.specs.Outs.{AllSuitStore};
ghost use Rattle.nk_determ.specs.Pairs.{Under, Once};
ghost use Rattle.nk_goal.specs.Entries.{HaveSets};
ghost use Rattle.nk_backward.specs.Transitions.{OutsSuitStore};
ghost use Rattle.nk_backward.specs.Places.{AreAllPlaces};
ghost use Rattle.nk_backward.specs.Closures.{AreFound};
ghost use Rattle.nk_backward.specs.Sweeps.{IsLedOut, IsLedBy, IsWidened, IsTakenBack, IsSwept};

use crate::closure::preimage_by_out;
use crate::postorder::{Rank, in_postorder};
use crate::predecessors::{run_of_set, set_at};
use crate::transitions::Transitions;
use nk_apply::union_all;
use nk_determ::SetId;
use nk_field::List;
use nk_goal::Entries;
use nk_sets::{OutPackets, is_empty};
use nk_store::{Id, Store};
use std::alloc::AllocError;

/// How often all transitions are swept at most.
const SWEEPS: usize = 4;

/// Adds packets from where transitions lead into the entries, by a few sweeps in post-order. The answer is true only if none is
/// missing then; it is false where the last sweep still added some. The only error is that memory ran out.
pub(crate) fn sweep_some(
    st: &mut Store,
    ts: &List<Transitions>,
    back: &mut Entries,
) -> Result<bool, AllocError>
    requires suits_store { OutsSuitStore st.old ts.now }
    requires back { HaveSets st.old back.old }
    requires once { Once back.old }
    ensures grows { Grows st.old st.new }
    ensures ok { IfOk result
        (λ closed. IsSwept st.old ts.now back.old st.new back.new closed) }
{
    let order = in_postorder(st.alloc(), ts)?;
    'sweeps: for _ in 0..SWEEPS {
        let closed = sweep(st, ts, &order, back)?;
        if closed {
            return Ok(true);
        }
    }
    Ok(false)
}

/// Takes the entries back along the transitions of each place in turn. The answer is true only if no packet is new.
fn sweep(
    st: &mut Store,
    ts: &List<Transitions>,
    order: &List<(Rank, usize)>,
    back: &mut Entries,
) -> Result<bool, AllocError>
    requires suits_store { OutsSuitStore st.old ts.now }
    requires order { AreAllPlaces (length ts.now) order.now }
    requires back { HaveSets st.old back.old }
    requires once { Once back.old }
    ensures grows { Grows st.old st.new }
    ensures ok { IfOk result
        (λ closed. IsSwept st.old ts.now back.old st.new back.new closed) }
{
    let mut closed = true;
    for k in 0..order.len() {
        let place = order.at(k).1;
        let t = ts.at(place);
        let none = sweep_one(st, t, back)?;
        closed = both_hold(closed, none);
    }
    Ok(closed)
}

/// Whether both are true.
fn both_hold(a: bool, b: bool) -> bool
    ensures { result ≡ a && b }
{
    a && b
}

/// Takes the entries back along the transitions of one place. The answer is true only if no packet is new.
fn sweep_one(st: &mut Store, t: &Transitions, back: &mut Entries) -> Result<bool, AllocError>
    requires suits_store { AllSuitStore st.old t.now.outs }
    requires back { HaveSets st.old back.old }
    requires once { Once back.old }
    ensures grows { Grows st.old st.new }
    ensures ok { IfOk result
        (λ none. IsTakenBack st.old t.now back.old st.new back.new none) }
{
    let found = led_from(st, t, back)?;
    let none = put_all(st, found.as_slice(), back)?;
    Ok(none)
}

/// Adds the found packets under their sets. The answer is true only if none is new there. Those of one set that stand next to each
/// other go in at once.
fn put_all(st: &mut Store, found: &[(SetId, Id)], back: &mut Entries) -> Result<bool, AllocError>
    requires found { HaveSets st.old found.now }
    requires back { HaveSets st.old back.old }
    requires once { Once back.old }
    ensures grows { Grows st.old st.new }
    ensures ok { IfOk result (λ none. IsWidened st.old
        (Under st.old found.now) back.old st.new back.new none) }
{
    let mut none = true;
    let mut from = 0;
    while from < found.len() {
        let (to, run) = run_of_set(st.alloc(), found, from)?;
        let y = union_all(st, run.as_slice())?;
        let known = put(st, set_at(found, from), y, back)?;
        none = both_hold(none, known);
        from = to;
    }
    Ok(none)
}

/// Adds packets under a set. The answer is true only if none is new there: the set's diagram stays the same.
fn put(st: &mut Store, s: SetId, y: Id, back: &mut Entries) -> Result<bool, AllocError>
    requires packets { IsSet st.old y }
    requires back { HaveSets st.old back.old }
    requires once { Once back.old }
    ensures grows { Grows st.old st.new }
    ensures ok { IfOk result (λ none. IsWidened st.old (λ i z. (i ≡ s)
        × (is_in st.old y z ≡ true)) back.old st.new back.new none) }
{
    if is_empty(st, y) {
        return Ok(true);
    }
    let before = back.packets_of_set(s);
    back.add(st, s, y)?;
    let after = back.packets_of_set(s);
    Ok(is_same(before, after))
}

/// Whether both are there and the same.
fn is_same(before: Option<Id>, after: Option<Id>) -> bool
    ensures { result ≡ true → (x : ℕ) × (before ≡ Some x) × (after ≡ Some x) }
{
    match (before, after) {
        (Some(a), Some(b)) => a == b,
        _ => false,
    }
}

/// The packets from where the transitions of one place lead into the entries, those of each out by themselves.
fn led_from(
    st: &mut Store,
    t: &Transitions,
    back: &Entries,
) -> Result<List<(SetId, Id)>, AllocError>
    requires suits_store { AllSuitStore st.old t.now.outs }
    requires back { HaveSets st.old back.now }
    requires once { Once back.now }
    ensures grows { Grows st.old st.new }
    ensures ok { IfOk result
        (λ found. AreFound st.old
        (IsLedBy st.old t.now (length t.now.outs) back.now) [] st.new found) }
{
    let mut found = List::new(st.alloc());
    for i in 0..t.outs.len() {
        push_led(st, t.source, t.outs.at(i), back, &mut found)?;
    }
    Ok(found)
}

/// Puts the packets that an out leads from a set into the entries after others.
fn push_led(
    st: &mut Store,
    s: SetId,
    o: &OutPackets,
    back: &Entries,
    found: &mut List<(SetId, Id)>,
) -> Result<(), AllocError>
    requires from { IsSet st.old o.now.packets }
    requires back { HaveSets st.old back.now }
    requires once { Once back.now }
    requires found { HaveSets st.old found.old }
    ensures grows { Grows st.old st.new }
    ensures ok { OnOk result
        (AreFound st.old (IsLedOut st.old s o.now back.now) found.old st.new found.new) }
{
    if o.out.target == 0 {
        return Ok(());
    }
    let Some(x) = back.packets_of_set(SetId::from_target(o.out.target)) else {
        return Ok(());
    };
    let led = preimage_by_out(st, o, x)?;
    found.push((s, led))?;
    Ok(())
}
