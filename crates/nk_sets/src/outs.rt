//! Which packets of a diagram have which out.
ghost use Rattle.std.specs.Prelude.{◌≡◌, ◌++◌, ◌<◌, true, nat_eq, map, IfOk, OnOk, IsSome, List as Items};
ghost use Rattle.std.specs.Map.{lookup};
ghost use Rattle.nk_store.specs.StoreState.{IsId, Grows, root_field};
ghost use Rattle.nk_apply.specs.Cofactors.{IsSplit};
ghost use Rattle.nk_sets.specs.Outs.{IsByOut, AreByOut, AreOfDiagram, out_with_packets, stretch, stretches};

use crate::groups::{Stretch, grouped};
use nk_apply::{Memo, identity, part_near, tested};
use nk_field::{Fid, List};
use nk_store::{Id, Node, Out, Store};
use std::alloc::{AllocError, Global};

/// An out with packets that have it.
pub struct OutPackets {
    /// The out.
    pub out: Out,
    /// The packets.
    pub packets: Id,
}

impl Drop for OutPackets {
    fn drop(self) {
        let Self { out: _, packets: _ } = self;
    }
}

/// Which packets of a diagram have which out. Each node is visited once, its children before it. The only error is that
/// memory ran out.
pub fn packets_by_out(st: &mut Store, d: Id) -> Result<List<OutPackets>, AllocError>
    requires { IsId st.old d }
    ensures grows { Grows st.old st.new }
    ensures ok { IfOk result (λ es. IsByOut st.new d es) }
{
    let mut seen = Memo::new(st.alloc());
    outs_new(st, &mut seen, d)
}

/// Keeps which packets of a diagram have which out, if that isn't kept yet.
#[cycle(outs)]
fn visit(st: &mut Store, seen: &mut Memo<List<OutPackets>>, d: Id) -> Result<(), AllocError>
    requires id { IsId st.old d }
    requires seen { AreByOut st.old seen.old }
    ensures grows { Grows st.old st.new }
    ensures seen { OnOk result (AreByOut st.new seen.new) }
    ensures found { OnOk result (IsSome (lookup (nat_eq d) seen.new)) }
{
    if is_known(seen, d) {
        return Ok(());
    }
    let made = outs_new(st, seen, d)?;
    seen.insert(d, made)?;
    Ok(())
}

/// Whether something is kept of a diagram.
fn is_known(seen: &Memo<List<OutPackets>>, d: Id) -> bool
    ensures { result ≡ true → IsSome (lookup (nat_eq d) seen.now) }
{
    seen.get(d).is_some()
}

/// Which packets have which out, found anew.
#[cycle(outs)]
fn outs_new(
    st: &mut Store,
    seen: &mut Memo<List<OutPackets>>,
    d: Id,
) -> Result<List<OutPackets>, AllocError>
    requires id { IsId st.old d }
    requires seen { AreByOut st.old seen.old }
    ensures grows { Grows st.old st.new }
    ensures ok { IfOk result (λ es. IsByOut st.new d es) }
    ensures seen { OnOk result (AreByOut st.new seen.new) }
{
    match tested(st, d) {
        None => outs_of_leaf(st, d),
        Some(f) => outs_of_case(st, seen, f, d),
    }
}

/// The outs of a leaf, each for all packets.
fn outs_of_leaf(st: &mut Store, d: Id) -> Result<List<OutPackets>, AllocError>
    requires id { IsId st.old d }
    requires leaf { root_field st.old d ≡ 18 }
    ensures grows { Grows st.old st.new }
    ensures ok { IfOk result (λ es. IsByOut st.new d es) }
{
    let all = identity(st)?;
    let es = match st.view(d) {
        Node::Leaf(outs) => each_for(st.alloc(), outs.as_slice(), all)?,
        Node::Case(_, _) => unreachable!(),
    };
    Ok(es)
}

/// Each of the outs for the same packets.
fn each_for(alloc: Global, outs: &[Out], packets: Id) -> Result<List<OutPackets>, AllocError>
    ensures { IfOk result (λ es. es ≡ map (out_with_packets packets) outs.now) }
{
    let mut all = List::with_capacity(alloc, outs.len())?;
    for o in outs {
        all.push(OutPackets {
            out: o.copy()?,
            packets,
        })?;
    }
    Ok(all)
}

/// Which packets have which out, of a diagram that tests a field.
#[cycle(outs)]
fn outs_of_case(
    st: &mut Store,
    seen: &mut Memo<List<OutPackets>>,
    f: Fid,
    d: Id,
) -> Result<List<OutPackets>, AllocError>
    requires id { IsId st.old d }
    requires field { f < 18 }
    requires first { root_field st.old d ≡ f }
    requires split { IsSplit st.old f d }
    requires seen { AreByOut st.old seen.old }
    ensures grows { Grows st.old st.new }
    ensures ok { IfOk result (λ es. IsByOut st.new d es) }
    ensures seen { OnOk result (AreByOut st.new seen.new) }
{
    let all = outs_of_parts(st, seen, f, d)?;
    grouped(st, f, d, all)
}

/// The outs of each part of a diagram, each with its packets of the part.
#[cycle(outs)]
fn outs_of_parts(
    st: &mut Store,
    seen: &mut Memo<List<OutPackets>>,
    f: Fid,
    d: Id,
) -> Result<List<Stretch>, AllocError>
    requires id { IsId st.old d }
    requires field { f < 18 }
    requires first { root_field st.old d ≡ f }
    requires split { IsSplit st.old f d }
    requires seen { AreByOut st.old seen.old }
    ensures grows { Grows st.old st.new }
    ensures ok { IfOk result (λ ss. AreOfDiagram st.new f d ss) }
    ensures seen { OnOk result (AreByOut st.new seen.new) }
{
    let max = st.max(f);
    let mut all = List::new(st.alloc());
    let mut near = 0;
    let mut from = 0;
    loop {
        let (end, child) = part_near(st, d, f, from, &mut near);
        put_outs(st, seen, child, from, end, &mut all)?;
        if end == max {
            return Ok(all);
        }
        from = end + 1;
    }
}

/// Puts which packets of a diagram have which out after others, for the values of an interval. Those of a leaf are put at
/// once, and not into the table.
#[cycle(outs)]
fn put_outs(
    st: &mut Store,
    seen: &mut Memo<List<OutPackets>>,
    d: Id,
    from: u64,
    end: u64,
    all: &mut List<Stretch>,
) -> Result<(), AllocError>
    requires id { IsId st.old d }
    requires seen { AreByOut st.old seen.old }
    ensures grows { Grows st.old st.new }
    ensures ok { OnOk result
        ((es : Items OutPackets) × IsByOut st.new d es
        × (all.new ≡ all.old ++ map (stretch from end) es)) }
    ensures seen { OnOk result (AreByOut st.new seen.new) }
{
    match tested(st, d) {
        None => put_leaf(st, d, from, end, all),
        Some(_) => {
            visit(st, seen, d)?;
            put_known(seen, d, from, end, all)
        }
    }
}

/// Puts the outs of a leaf, each for all packets, after others, for the values of an interval.
fn put_leaf(
    st: &mut Store,
    d: Id,
    from: u64,
    end: u64,
    all: &mut List<Stretch>,
) -> Result<(), AllocError>
    requires id { IsId st.old d }
    requires leaf { root_field st.old d ≡ 18 }
    ensures grows { Grows st.old st.new }
    ensures ok { OnOk result
        ((es : Items OutPackets) × IsByOut st.new d es
        × (all.new ≡ all.old ++ map (stretch from end) es)) }
{
    let packets = identity(st)?;
    match st.view(d) {
        Node::Leaf(outs) => put_each(outs.as_slice(), packets, from, end, all),
        Node::Case(_, _) => unreachable!(),
    }
}

/// Puts outs with the same packets after others, for the values of an interval.
fn put_each(
    outs: &[Out],
    packets: Id,
    from: u64,
    end: u64,
    all: &mut List<Stretch>,
) -> Result<(), AllocError>
    ensures { OnOk result (all.new
        ≡ all.old ++ map (stretch from end) (map (out_with_packets packets) outs.now)) }
{
    for o in outs {
        all.push(Stretch {
            out: o.copy()?,
            from,
            end,
            packets,
        })?;
    }
    Ok(())
}

/// Appends what is kept of a diagram, for the values of an interval; nothing, if nothing is kept.
fn put_known(
    seen: &Memo<List<OutPackets>>,
    d: Id,
    from: u64,
    end: u64,
    all: &mut List<Stretch>,
) -> Result<(), AllocError>
    ensures { OnOk result (all.new
        ≡ all.old ++ stretches from end (lookup (nat_eq d) seen.now)) }
{
    match seen.get(d) {
        Some(es) => put_all(es.as_slice(), from, end, all),
        None => Ok(()),
    }
}

/// Puts entries after others, for the values of an interval.
fn put_all(
    es: &[OutPackets],
    from: u64,
    end: u64,
    all: &mut List<Stretch>,
) -> Result<(), AllocError>
    ensures { OnOk result (all.new ≡ all.old ++ map (stretch from end) es.now) }
{
    for e in es {
        all.push(Stretch {
            out: e.out.copy()?,
            from,
            end,
            packets: e.packets,
        })?;
    }
    Ok(())
}
