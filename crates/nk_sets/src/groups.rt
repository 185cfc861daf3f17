//! Outs by the values of a field, those of one out put together.
ghost use Rattle.std.specs.Prelude.{◌≡◌, ◌<◌, ◌≤◌, IfOk, OnOk, true, length, IsPermutation};
ghost use Rattle.nk_store.specs.StoreState.{Grows};
ghost use Rattle.nk_sets.specs.Outs.{IsByOut, AreStretches, AreOfDiagram, AreUnited, IsRunOf, HaveRun, IsNone, piece, with_stretch};

use crate::outs::OutPackets;
use nk_apply::empty;
use nk_field::{Fid, List};
use nk_store::{Id, Out, Store};
use std::alloc::AllocError;

/// An out with packets that have it where a field's value is in the interval.
#[derive(PartialEq, Eq, PartialOrd, Ord)]
pub(crate) struct Stretch {
    pub out: Out,
    pub from: u64,
    pub end: u64,
    pub packets: Id,
}

impl Drop for Stretch {
    fn drop(self) {
        let Self {
            out: _,
            from: _,
            end: _,
            packets: _,
        } = self;
    }
}

/// The entries of a diagram, with all packets of an out in one.
pub(crate) fn grouped(
    st: &mut Store,
    f: Fid,
    d: Id,
    ss: List<Stretch>,
) -> Result<List<OutPackets>, AllocError>
    requires field { f < 18 }
    requires stretches { AreOfDiagram st.old f d ss }
    ensures grows { Grows st.old st.new }
    ensures ok { IfOk result (λ es. IsByOut st.new d es) }
{
    let ordered = in_order(ss);
    united(st, f, ordered.as_slice())
}

/// Ordered by their outs, those of one out by their intervals.
fn in_order(ss: List<Stretch>) -> List<Stretch>
    ensures { IsPermutation ss result }
{
    let mut all = ss.into_vec();
    all.sort_unstable();
    List::from_vec(all)
}

/// Those of one out that stand next to each other, and rise, put together.
fn united(st: &mut Store, f: Fid, ss: &[Stretch]) -> Result<List<OutPackets>, AllocError>
    requires field { f < 18 }
    requires stretches { AreStretches st.old f ss.now }
    ensures grows { Grows st.old st.new }
    ensures ok { IfOk result (λ made. AreUnited st.old f ss.now (length ss.now) st.new made) }
{
    let none = nothing(st)?;
    let mut made = List::new(st.alloc());
    let mut from = 0;
    while from < ss.len() {
        let out = out_at(ss, from)?;
        let (to, packets) = run_packets(st, f, none, ss, from)?;
        made.push(OutPackets { out, packets })?;
        from = to;
    }
    Ok(made)
}

/// The set of no packets.
fn nothing(st: &mut Store) -> Result<Id, AllocError>
    ensures grows { Grows st.old st.new }
    ensures ok { IfOk result (λ d. IsNone st.new d) }
{
    empty(st)
}

/// The out at a place once more.
fn out_at(ss: &[Stretch], k: usize) -> Result<Out, AllocError>
    requires { k < length ss.now }
    ensures { IfOk result (λ o. o ≡ (piece ss.now k).out) }
{
    ss[k].out.copy()
}

/// The packets of one out from a place on, and the place after the last of them. They end where the out is another one,
/// or where an interval doesn't stand after the one before it.
fn run_packets(
    st: &mut Store,
    f: Fid,
    none: Id,
    ss: &[Stretch],
    from: usize,
) -> Result<(usize, Id), AllocError>
    requires field { f < 18 }
    requires none { IsNone st.old none }
    requires stretches { AreStretches st.old f ss.now }
    requires within { from < length ss.now }
    ensures grows { Grows st.old st.new }
    ensures ok { IfOk result (λ r. IsRunOf st.old f ss.now from r.0 st.new r.1) }
{
    let (to, parts) = run_parts(st, f, none, ss, from)?;
    let packets = st.case(f, parts)?;
    Ok((to, packets))
}

/// The parts by a field of the packets of one out from a place on, and the place after the last of them.
fn run_parts(
    st: &Store,
    f: Fid,
    none: Id,
    ss: &[Stretch],
    from: usize,
) -> Result<(usize, List<(u64, Id)>), AllocError>
    requires field { f < 18 }
    requires none { IsNone st.now none }
    requires stretches { AreStretches st.now f ss.now }
    requires within { from < length ss.now }
    ensures { IfOk result (λ r. HaveRun st.now f ss.now from r.0 r.1) }
{
    let max = st.max(f);
    let mut parts = List::new(st.alloc());
    let mut next = 0;
    let mut k = from;
    loop {
        put_part(&mut parts, next, none, ss, k)?;
        let end = end_at(ss, k);
        k += 1;
        if end == max {
            return Ok((k, parts));
        }
        next = end + 1;
        if k == ss.len() || !follows(ss, from, k, next) {
            parts.push((max, none))?;
            return Ok((k, parts));
        }
    }
}

/// Puts the part of the stretch at a place after others, and before it one of no packets for the values from next up to it.
fn put_part(
    parts: &mut List<(u64, Id)>,
    next: u64,
    none: Id,
    ss: &[Stretch],
    k: usize,
) -> Result<(), AllocError>
    requires { k < length ss.now }
    ensures { OnOk result (parts.new ≡ with_stretch next none (piece ss.now k) parts.old) }
{
    let from = ss[k].from;
    if next < from {
        parts.push((from - 1, none))?;
    }
    parts.push((ss[k].end, ss[k].packets))?;
    Ok(())
}

/// The last value of the stretch at a place.
fn end_at(ss: &[Stretch], k: usize) -> u64
    requires { k < length ss.now }
    ensures { result ≡ (piece ss.now k).end }
{
    ss[k].end
}

/// Whether the stretch at place b has the out of that at a, and no value before next.
#[tactic(auto, using(nk_store::proofs::NodeEq::out_decides))]
fn follows(ss: &[Stretch], a: usize, b: usize, next: u64) -> bool
    requires left { a < length ss.now }
    requires right { b < length ss.now }
    ensures out { result ≡ true → (piece ss.now b).out ≡ (piece ss.now a).out }
    ensures following { result ≡ true → next ≤ (piece ss.now b).from }
{
    ss[b].out == ss[a].out && next <= ss[b].from
}
