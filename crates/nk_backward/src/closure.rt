//! Entries with all packets from where transitions lead into them.
ghost use Rattle.std.specs.Prelude.{◌≡◌, ◌&&◌, [], true, IfOk, IfSome, OnOk, length};
ghost use Rattle.nk_field.specs.Act.{applied};
ghost use Rattle.nk_store.specs.StoreState.{Grows};
ghost use Rattle.nk_sets.specs.PacketSets.{is_in, IsSet, IsPacketSetOf};
ghost use Rattle.nk_sets.specs.Outs.{AllSuitStore};
ghost use Rattle.nk_determ.specs.Pairs.{Under, Once};
ghost use Rattle.nk_goal.specs.Entries.{HaveSets};
ghost use Rattle.nk_backward.specs.Transitions.{OutsSuitStore};
ghost use Rattle.nk_backward.specs.Predecessors.{ArePlacesBelow, ArePredecessors};
ghost use Rattle.nk_backward.specs.Closures.{IsTakenOut, IsTakenBelow, LeadsToSet, IsLedInto, AreFound, IsGained, IsClosure, IsWholeFrontier};

use crate::predecessors::{
    Predecessors, in_order, outs_into, place_of, predecessors_of, run_of_set, set_at,
};
use crate::sweeps::sweep_some;
use crate::transitions::Transitions;
use nk_apply::{both, union_all};
use nk_determ::SetId;
use nk_field::List;
use nk_goal::Entries;
use nk_sets::{OutPackets, is_empty, preimage};
use nk_store::{Id, Store};
use std::alloc::{AllocError, Global};

/// Entries with all packets from where transitions lead into the given ones, in any number: the least fixed point of preimages.
/// Where a few sweeps don't find it, the transitions into each set are made, once, and the entries are taken back along them. The
/// only error is that memory ran out.
pub(crate) fn close_back(
    st: &mut Store,
    ts: &List<Transitions>,
    pre: &mut Option<Predecessors>,
    goal: List<(SetId, Id)>,
) -> Result<Entries, AllocError>
    requires suits_store { OutsSuitStore st.old ts.now }
    requires pre { IfSome pre.old (λ p. ArePredecessors st.old ts.now p.places p.into.entries) }
    requires goal { HaveSets st.old goal }
    ensures grows { Grows st.old st.new }
    ensures ok { IfOk result (λ back. IsClosure st.old ts.now goal st.new back) }
    ensures pre { OnOk result
        (IfSome pre.new (λ p. ArePredecessors st.new ts.now p.places p.into.entries)) }
{
    let mut back = Entries::new(st.alloc());
    back.add_level(st, &goal)?;
    close_all(st, ts, pre, &mut back)?;
    Ok(back)
}

/// Adds all packets from where transitions lead into the entries.
fn close_all(
    st: &mut Store,
    ts: &List<Transitions>,
    pre: &mut Option<Predecessors>,
    back: &mut Entries,
) -> Result<(), AllocError>
    requires suits_store { OutsSuitStore st.old ts.now }
    requires pre { IfSome pre.old (λ p. ArePredecessors st.old ts.now p.places p.into.entries) }
    requires back { HaveSets st.old back.old }
    requires once { Once back.old }
    ensures grows { Grows st.old st.new }
    ensures ok { OnOk result (IsClosure st.old ts.now back.old st.new back.new) }
    ensures pre { OnOk result
        (IfSome pre.new (λ p. ArePredecessors st.new ts.now p.places p.into.entries)) }
{
    let closed = sweep_some(st, ts, back)?;
    if closed {
        return Ok(());
    }
    close_rest(st, ts, pre, back)?;
    Ok(())
}

/// Adds all packets from where transitions lead into the entries, by the transitions into each set. These are made when they
/// are first needed.
fn close_rest(
    st: &mut Store,
    ts: &List<Transitions>,
    pre: &mut Option<Predecessors>,
    back: &mut Entries,
) -> Result<(), AllocError>
    requires suits_store { OutsSuitStore st.old ts.now }
    requires pre { IfSome pre.old (λ p. ArePredecessors st.old ts.now p.places p.into.entries) }
    requires back { HaveSets st.old back.old }
    requires once { Once back.old }
    ensures grows { Grows st.old st.new }
    ensures ok { OnOk result (IsClosure st.old ts.now back.old st.new back.new) }
    ensures pre { OnOk result
        (IfSome pre.new (λ p. ArePredecessors st.new ts.now p.places p.into.entries)) }
{
    if let Some(known) = &*pre {
        close_by(st, ts, known, back)?;
        return Ok(());
    }
    let made = predecessors_of(st, ts)?;
    close_by(st, ts, &made, back)?;
    *pre = Some(made);
    Ok(())
}

/// Adds all packets from where transitions lead into the entries, by the transitions into each set, which are made already.
fn close_by(
    st: &mut Store,
    ts: &List<Transitions>,
    pre: &Predecessors,
    back: &mut Entries,
) -> Result<(), AllocError>
    requires suits_store { OutsSuitStore st.old ts.now }
    requires pre { ArePredecessors st.old ts.now pre.now.places pre.now.into.entries }
    requires back { HaveSets st.old back.old }
    requires once { Once back.old }
    ensures grows { Grows st.old st.new }
    ensures ok { OnOk result (IsClosure st.old ts.now back.old st.new back.new) }
{
    let all = entries_of(st.alloc(), back)?;
    take_all_back(st, ts, pre, all, back)
}

/// The entries as a list.
fn entries_of(alloc: Global, pairs: &Entries) -> Result<List<(SetId, Id)>, AllocError>
    ensures { IfOk result (λ ps. ps ≡ pairs.now) }
{
    let all = Vec::from_slice(alloc, pairs.as_slice())?;
    Ok(List::from_vec(all))
}

/// Adds all packets from where transitions lead into the entries. The frontier has what is not yet taken back, at first all of
/// the entries. Each pass takes the frontier back, along the transitions into its sets alone; what comes new is the next one.
fn take_all_back(
    st: &mut Store,
    ts: &List<Transitions>,
    pre: &Predecessors,
    all: List<(SetId, Id)>,
    back: &mut Entries,
) -> Result<(), AllocError>
    requires suits_store { OutsSuitStore st.old ts.now }
    requires pre { ArePredecessors st.old ts.now pre.now.places pre.now.into.entries }
    requires frontier { IsWholeFrontier st.old all back.old }
    requires back { HaveSets st.old back.old }
    requires once { Once back.old }
    ensures grows { Grows st.old st.new }
    ensures ok { OnOk result (IsClosure st.old ts.now back.old st.new back.new) }
{
    let mut frontier = all;
    'passes: loop {
        let next = pass_back(st, ts, pre, &frontier, back)?;
        if next.len() == 0 {
            return Ok(());
        }
        frontier = next;
    }
}

/// Takes a frontier back, and answers the next one: the packets that came new, each set once.
fn pass_back(
    st: &mut Store,
    ts: &List<Transitions>,
    pre: &Predecessors,
    frontier: &List<(SetId, Id)>,
    back: &mut Entries,
) -> Result<List<(SetId, Id)>, AllocError>
    requires suits_store { OutsSuitStore st.old ts.now }
    requires pre { ArePredecessors st.old ts.now pre.now.places pre.now.into.entries }
    requires frontier { HaveSets st.old frontier.now }
    requires back { HaveSets st.old back.old }
    requires once { Once back.old }
    ensures grows { Grows st.old st.new }
    ensures ok { IfOk result
        (λ next. IsGained st.old
        (IsLedInto st.old ts.now frontier.now) back.old [] st.new back.new next) }
{
    let found = led_into(st, ts, pre, frontier)?;
    let ordered = in_order(found);
    let next = put_all_new(st, ordered.as_slice(), back)?;
    Ok(next)
}

/// The packets from where transitions lead into a frontier, by set; a set may stand more than once.
fn led_into(
    st: &mut Store,
    ts: &List<Transitions>,
    pre: &Predecessors,
    frontier: &List<(SetId, Id)>,
) -> Result<List<(SetId, Id)>, AllocError>
    requires suits_store { OutsSuitStore st.old ts.now }
    requires pre { ArePredecessors st.old ts.now pre.now.places pre.now.into.entries }
    requires frontier { HaveSets st.old frontier.now }
    ensures grows { Grows st.old st.new }
    ensures ok { IfOk result
        (λ found. AreFound st.old (IsLedInto st.old ts.now frontier.now) [] st.new found) }
{
    let mut found = List::new(st.alloc());
    let count = frontier.len();
    for k in 0..count {
        let (t, x) = *frontier.at(k);
        take_back(st, ts, pre, t, x, &mut found)?;
    }
    Ok(found)
}

/// Takes packets under a set back, along the transitions that make them.
fn take_back(
    st: &mut Store,
    ts: &List<Transitions>,
    pre: &Predecessors,
    t: SetId,
    x: Id,
    found: &mut List<(SetId, Id)>,
) -> Result<(), AllocError>
    requires suits_store { OutsSuitStore st.old ts.now }
    requires pre { ArePredecessors st.old ts.now pre.now.places pre.now.into.entries }
    requires packets { IsSet st.old x }
    requires found { HaveSets st.old found.old }
    ensures grows { Grows st.old st.new }
    ensures ok { OnOk result
        (AreFound st.old (LeadsToSet st.old ts.now t x) found.old st.new found.new) }
{
    let outs = outs_into(st, pre, t, x)?;
    take_outs(st, ts, &pre.places, &outs, found)?;
    Ok(())
}

/// Takes the packets of outs back, each out along the transition that it stands for.
fn take_outs(
    st: &mut Store,
    ts: &List<Transitions>,
    places: &List<(usize, usize)>,
    outs: &List<OutPackets>,
    found: &mut List<(SetId, Id)>,
) -> Result<(), AllocError>
    requires suits_store { OutsSuitStore st.old ts.now }
    requires places { ArePlacesBelow ts.now (length ts.now) places.now }
    requires outs { AllSuitStore st.old outs.now }
    requires found { HaveSets st.old found.old }
    ensures grows { Grows st.old st.new }
    ensures ok { OnOk result
        (AreFound st.old (IsTakenBelow st.old ts.now places.now outs.now
        (length outs.now)) found.old st.new found.new) }
{
    for i in 0..outs.len() {
        take_out(st, ts, places, outs.at(i), found)?;
    }
    Ok(())
}

/// Takes the packets of an out back, along the transition that it stands for.
fn take_out(
    st: &mut Store,
    ts: &List<Transitions>,
    places: &List<(usize, usize)>,
    q: &OutPackets,
    found: &mut List<(SetId, Id)>,
) -> Result<(), AllocError>
    requires suits_store { OutsSuitStore st.old ts.now }
    requires places { ArePlacesBelow ts.now (length ts.now) places.now }
    requires packets { IsSet st.old q.now.packets }
    requires found { HaveSets st.old found.old }
    ensures grows { Grows st.old st.new }
    ensures ok { OnOk result
        (AreFound st.old (IsTakenOut st.old ts.now places.now q.now) found.old st.new found.new) }
{
    let Some(place) = place_of(places, q.out.target) else {
        return Ok(());
    };
    let t = ts.at(place.0);
    let o = t.outs.at(place.1);
    let led = preimage_by_out(st, o, q.packets)?;
    found.push((t.source, led))?;
    Ok(())
}

/// The packets of an out that the out's act makes packets of this set.
pub(crate) fn preimage_by_out(st: &mut Store, o: &OutPackets, x: Id) -> Result<Id, AllocError>
    requires from { IsSet st.old o.now.packets }
    requires to { IsSet st.old x }
    ensures grows { Grows st.old st.new }
    ensures ok { IfOk result
        (λ r. IsPacketSetOf st.new r
        (λ pk. is_in st.old x (applied o.now.out.act pk) && is_in st.old o.now.packets pk)) }
{
    let before = preimage(st, &o.out.act, x)?;
    let led = both(st, before, o.packets)?;
    Ok(led)
}

/// Adds those of the found packets that don't stand under their sets yet. Those of one set that stand next to each other go in at
/// once.
fn put_all_new(
    st: &mut Store,
    found: &[(SetId, Id)],
    back: &mut Entries,
) -> Result<List<(SetId, Id)>, AllocError>
    requires found { HaveSets st.old found.now }
    requires back { HaveSets st.old back.old }
    requires once { Once back.old }
    ensures grows { Grows st.old st.new }
    ensures ok { IfOk result
        (λ next. IsGained st.old
        (Under st.old found.now) back.old [] st.new back.new next) }
{
    let mut next = Entries::new(st.alloc());
    let mut from = 0;
    while from < found.len() {
        let (to, run) = run_of_set(st.alloc(), found, from)?;
        let y = union_all(st, run.as_slice())?;
        put_new(st, set_at(found, from), y, back, &mut next)?;
        from = to;
    }
    Ok(next.into_list())
}

/// Adds those of the packets that don't stand under a set yet, to all entries and to what came new.
fn put_new(
    st: &mut Store,
    s: SetId,
    y: Id,
    back: &mut Entries,
    next: &mut Entries,
) -> Result<(), AllocError>
    requires packets { IsSet st.old y }
    requires back { HaveSets st.old back.old }
    requires once { Once back.old }
    requires next { HaveSets st.old next.old }
    requires next_once { Once next.old }
    ensures grows { Grows st.old st.new }
    ensures ok { OnOk result
        (IsGained st.old (λ i z. (i ≡ s)
        × (is_in st.old y z ≡ true)) back.old next.old st.new back.new
        next.new) }
{
    let rest = back.unvisited(st, s, y)?;
    if is_empty(st, rest) {
        return Ok(());
    }
    back.add(st, s, rest)?;
    next.add(st, s, rest)?;
    Ok(())
}
