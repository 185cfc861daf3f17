//! The packets at ports, as a node by the switch over nodes by the port.
ghost use Rattle.std.specs.Prelude.{◌≡◌, ◌≤◌, true, false, if◌then◌else◌, slice_index, IfOk};
ghost use Rattle.nk_topo.specs.Topology.{IsTopology, ports_of};
ghost use Rattle.nk_store.specs.StoreState.{Grows};
ghost use Rattle.nk_compile.specs.PacketSets.{IsSetInRange, IsConstantSet, IsChildSet};
ghost use Rattle.nk_compile.specs.Ports.{is_counted, with_sets};
ghost use Rattle.nk_compile.specs.Ports as which;

use crate::children::by_values;
use nk_apply::{empty, identity};
use nk_field::{Fid, List};
use nk_store::{Id, Store};
use nk_topo::Topo;
use std::alloc::{AllocError, Global};

/// The packets at a declared port, or at an edge port where these alone count.
pub(crate) fn at_ports(st: &mut Store, topo: &Topo, edges_only: bool) -> Result<Id, AllocError>
    requires switch { 65535 ≤ slice_index st.old.maxes 0 }
    requires port { 65535 ≤ slice_index st.old.maxes 1 }
    ensures grows { Grows st.old st.new }
    ensures set { IfOk result
        (λ d. IsSetInRange st.new d
        (λ pk. is_counted edges_only topo.now (slice_index pk 0) (slice_index pk 1))) }
{
    let none = no_packets(st)?;
    let all = all_packets(st)?;
    let switches = topo.switches();
    let mut children = List::with_capacity(st.alloc(), switches.len())?;
    for sw in switches {
        let d = at_switch(st, topo, *sw, edges_only, none, all)?;
        children.push((*sw, d))?;
    }
    by_values(st, Fid::SWITCH, none, children.as_slice())
}

/// The set of no packets.
fn no_packets(st: &mut Store) -> Result<Id, AllocError>
    ensures grows { Grows st.old st.new }
    ensures set { IfOk result (λ d. IsConstantSet st.new d false) }
{
    empty(st)
}

/// The set of all packets.
fn all_packets(st: &mut Store) -> Result<Id, AllocError>
    ensures grows { Grows st.old st.new }
    ensures set { IfOk result (λ d. IsConstantSet st.new d true) }
{
    identity(st)
}

/// The packets whose port is one of the switch that counts, whatever their switch.
fn at_switch(
    st: &mut Store,
    topo: &Topo,
    sw: u16,
    edges_only: bool,
    none: Id,
    all: Id,
) -> Result<Id, AllocError>
    requires topology { IsTopology topo.now }
    requires port { 65535 ≤ slice_index st.old.maxes 1 }
    requires none { IsConstantSet st.old none false }
    requires all { IsConstantSet st.old all true }
    ensures grows { Grows st.old st.new }
    ensures set { IfOk result
        (λ d. IsChildSet st.new 0 d
        (λ pk. is_counted edges_only topo.now sw (slice_index pk 1))) }
{
    let children = port_sets(st.alloc(), topo, sw, edges_only, none, all)?;
    by_values(st, Fid::PORT, none, children.as_slice())
}

/// The ports of a switch, each with its set: `all` where it counts, else `none`.
fn port_sets(
    alloc: Global,
    topo: &Topo,
    sw: u16,
    edges_only: bool,
    none: Id,
    all: Id,
) -> Result<List<(u16, Id)>, AllocError>
    ensures { IfOk result (λ cs. cs ≡
        with_sets edges_only topo.now sw none all (ports_of topo.now sw)) }
{
    let ports = topo.ports(sw);
    let mut children = List::with_capacity(alloc, ports.len())?;
    for pt in ports {
        let set = port_set(topo, sw, *pt, edges_only, none, all);
        children.push((*pt, set))?;
    }
    Ok(children)
}

/// `all` where the declared port counts, else `none`.
fn port_set(topo: &Topo, sw: u16, pt: u16, edges_only: bool, none: Id, all: Id) -> Id
    ensures { result ≡ (if which.counts edges_only topo.now sw pt then all else none) }
{
    if counts(topo, sw, pt, edges_only) {
        all
    } else {
        none
    }
}

/// Whether a declared port counts: each one does, or those alone where no link begins.
fn counts(topo: &Topo, sw: u16, pt: u16, edges_only: bool) -> bool
    ensures { result ≡ which.counts edges_only topo.now sw pt }
{
    !edges_only || topo.link_from(sw, pt).is_none()
}
