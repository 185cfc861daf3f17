//! Where packets start and where they may leave, as sets of packets.
ghost use Rattle.std.specs.Prelude.{◌≤◌, slice_index, IfOk};
ghost use Rattle.nk_topo.specs.Topology.{is_port, is_edge};
ghost use Rattle.nk_store.specs.StoreState.{Grows};
ghost use Rattle.nk_apply.specs.Predicates.{IsPredicate};
ghost use Rattle.nk_compile.specs.PacketSets.{IsSetInRange};
ghost use Rattle.nk_compile.specs.Edges.{is_start, is_no_edge};

use crate::ports::at_ports;
use crate::sets::{in_both, outside, passing, with_value};
use nk_field::Fid;
use nk_store::{Id, Store};
use nk_topo::Topo;
use std::alloc::AllocError;

/// The packets at a declared port.
fn located(st: &mut Store, topo: &Topo) -> Result<Id, AllocError>
    requires switch { 65535 ≤ slice_index st.old.maxes 0 }
    requires port { 65535 ≤ slice_index st.old.maxes 1 }
    ensures grows { Grows st.old st.new }
    ensures set { IfOk result
        (λ d. IsSetInRange st.new d
        (λ pk. is_port topo.now (slice_index pk 0) (slice_index pk 1))) }
{
    at_ports(st, topo, false)
}

/// The packets at an edge port.
fn at_edges(st: &mut Store, topo: &Topo) -> Result<Id, AllocError>
    requires switch { 65535 ≤ slice_index st.old.maxes 0 }
    requires port { 65535 ≤ slice_index st.old.maxes 1 }
    ensures grows { Grows st.old st.new }
    ensures set { IfOk result
        (λ d. IsSetInRange st.new d
        (λ pk. is_edge topo.now (slice_index pk 0) (slice_index pk 1))) }
{
    at_ports(st, topo, true)
}

/// The packets that are at no edge port: at a port where a link begins, or at none that is
/// declared. The only error is that memory ran out.
pub fn off_edges(st: &mut Store, topo: &Topo) -> Result<Id, AllocError>
    requires switch { 65535 ≤ slice_index st.old.maxes 0 }
    requires port { 65535 ≤ slice_index st.old.maxes 1 }
    ensures grows { Grows st.old st.new }
    ensures set { IfOk result (λ d. IsSetInRange st.new d (is_no_edge topo.now)) }
    ensures predicate { IfOk result (λ d. IsPredicate st.new d) }
{
    let edges = at_edges(st, topo)?;
    outside(st, edges)
}

/// The packets with tag 0 at a declared port. The only error is that memory ran out.
pub fn starts(st: &mut Store, topo: &Topo, tag: Fid) -> Result<Id, AllocError>
    requires switch { 65535 ≤ slice_index st.old.maxes 0 }
    requires port { 65535 ≤ slice_index st.old.maxes 1 }
    ensures grows { Grows st.old st.new }
    ensures set { IfOk result (λ d. IsSetInRange st.new d (is_start topo.now tag)) }
    ensures predicate { IfOk result (λ d. IsPredicate st.new d) }
{
    let begun = untagged_ports(st, topo, tag)?;
    passing(st, begun)
}

/// The located packets with tag 0, by any diagram.
fn untagged_ports(st: &mut Store, topo: &Topo, tag: Fid) -> Result<Id, AllocError>
    requires switch { 65535 ≤ slice_index st.old.maxes 0 }
    requires port { 65535 ≤ slice_index st.old.maxes 1 }
    ensures grows { Grows st.old st.new }
    ensures set { IfOk result (λ d. IsSetInRange st.new d (is_start topo.now tag)) }
{
    let untagged = with_value(st, tag, 0)?;
    let ports = located(st, topo)?;
    in_both(st, untagged, ports)
}
