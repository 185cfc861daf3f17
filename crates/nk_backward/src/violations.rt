//! The packets at which one side has a violation.
ghost use Rattle.std.specs.Prelude.{◌≡◌, ◌<◌, ℕ, [], IfOk, OnOk, length, slice_index_or, List as Items};
ghost use Rattle.nk_store.specs.StoreState.{StoreState, IsId, look, Grows, HasLeaves};
ghost use Rattle.nk_apply.specs.Leaves.{guarded};
ghost use Rattle.nk_sets.specs.PacketSets.{IsSet};
ghost use Rattle.nk_determ.specs.Pairs.{AreLabelsBelow, EachPair, IsPair, Once};
ghost use Rattle.nk_goal.specs.Entries.{HaveSets, IsAdded};
ghost use Rattle.nk_witness.specs.Backs.{AreViolationsSoFar};
ghost use Rattle.nk_backward.specs.CounterexampleStarts.{of_side};

use nk_determ::{SetId, Sets, retarget};
use nk_field::List;
use nk_goal::{Entries, Goal};
use nk_sets::{at_packets, is_empty};
use nk_store::{Id, Store};
use nk_witness::Side;
use std::alloc::AllocError;

/// The packets of some entries at which the side has a violation. The only error is that memory ran out.
pub(crate) fn violations<G: Goal>(
    st: &mut Store,
    ss: &Sets,
    entries: &List<(SetId, Id)>,
    g: &mut G,
    side: Side,
) -> Result<List<(SetId, Id)>, AllocError>
    requires fits { G.fits g.old st.old }
    requires entries { EachPair (IsPair st.old ss.now (G.labels g.old)) entries.now }
    ensures grows { Grows st.old st.new }
    ensures ok { IfOk result
        (λ back. AreViolationsSoFar st.old ss.now
        (λ set pk. of_side side (G.violations_of g.old st.old set pk)) entries.now st.new back) }
    ensures fits { OnOk result (G.fits g.new st.new) }
    ensures labels { OnOk result (G.labels g.new ≡ G.labels g.old) }
    ensures same { OnOk result
        ((st : StoreState) (set pk : Items ℕ)
        → G.violations_of g.new st set pk ≡ G.violations_of g.old st set pk) }
{
    let mut back = Entries::new(st.alloc());
    for k in 0..entries.len() {
        let (s, x) = *entries.at(k);
        let bad = side_violations(st, ss, s, x, g, side)?;
        add_some(st, &mut back, s, bad)?;
    }
    Ok(back.into_list())
}

/// Adds packets under a set, if there are any.
fn add_some(st: &mut Store, back: &mut Entries, s: SetId, y: Id) -> Result<(), AllocError>
    requires back { HaveSets st.old back.old }
    requires once { Once back.old }
    requires packets { IsSet st.old y }
    ensures grows { Grows st.old st.new }
    ensures ok { OnOk result (IsAdded st.old back.old s y st.new back.new) }
{
    if is_empty(st, y) {
        return Ok(());
    }
    back.add(st, s, y)
}

/// The packets of x at which one side has a violation of a set. A side is taken from the violations there alone.
fn side_violations<G: Goal>(
    st: &mut Store,
    ss: &Sets,
    s: SetId,
    x: Id,
    g: &mut G,
    side: Side,
) -> Result<Id, AllocError>
    requires fits { G.fits g.old st.old }
    requires set { s < length ss.now }
    requires places { AreLabelsBelow (G.labels g.old) (slice_index_or ss.now s []) }
    requires packets { IsId st.old x }
    ensures grows { Grows st.old st.new }
    ensures ok { IfOk result
        (λ r. HasLeaves st.new r
        (λ pk. guarded
        (of_side side (G.violations_of g.old st.old (slice_index_or ss.now s []) pk))
        (look st.old x pk))) }
    ensures fits { OnOk result (G.fits g.new st.new) }
    ensures labels { OnOk result (G.labels g.new ≡ G.labels g.old) }
    ensures same { OnOk result
        ((st : StoreState) (set pk : Items ℕ)
        → G.violations_of g.new st set pk ≡ G.violations_of g.old st set pk) }
{
    let all = g.bad(st, ss, s)?;
    let there = at_packets(st, x, all)?;
    let own = only_side(st, there, side)?;
    let r = at_packets(st, own, x)?;
    Ok(r)
}

/// Of a diagram of violations those of one side.
fn only_side(st: &mut Store, d: Id, side: Side) -> Result<Id, AllocError>
    requires { IsId st.old d }
    ensures grows { Grows st.old st.new }
    ensures ok { IfOk result (λ r. HasLeaves st.new r (λ pk. of_side side (look st.old d pk))) }
{
    match side {
        Side::Left => {
            let r = retarget(st, d, &[Some(0)])?;
            Ok(r)
        }
        Side::Right => {
            let r = retarget(st, d, &[None, Some(0)])?;
            Ok(r)
        }
    }
}
