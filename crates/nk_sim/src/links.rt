//! Where a packet that was sent goes on.
ghost use Rattle.std.specs.Prelude.{◌≡◌, ◌<◌, ◌≤◌, Some, None, MatchOption, false, slice_index};
ghost use Rattle.nk_topo.specs.Topology as declared;
ghost use Rattle.nk_sim.specs.Emitted.{ArePlaceNumbers};

use nk_field::{Fid, Packet};
use nk_topo::Topo;

/// Where the link that begins at a packet's switch and port ends, if one begins there.
pub fn link_at(topo: &Topo, p: &Packet) -> Option<(u16, u16)>
    ensures { result ≡ declared.link_from topo.now (slice_index p.now 0) (slice_index p.now 1) }
{
    let _links = topo.links();
    match numbers_at(topo, p) {
        Some((switch, port)) => topo.link_from(switch, port),
        None => None,
    }
}

/// Whether a packet is on an edge port.
pub fn leaves_at(topo: &Topo, p: &Packet) -> bool
    ensures { result ≡ declared.is_edge topo.now (slice_index p.now 0) (slice_index p.now 1) }
{
    match numbers_at(topo, p) {
        Some((switch, port)) => topo.is_edge(switch, port),
        None => false,
    }
}

/// Whether a packet is located: its switch and port are declared.
pub fn is_located(topo: &Topo, p: &Packet) -> bool
    ensures { result ≡ declared.is_port topo.now (slice_index p.now 0) (slice_index p.now 1) }
{
    match numbers_at(topo, p) {
        Some((switch, port)) => topo.is_port(switch, port),
        None => false,
    }
}

/// A packet's switch and port, where both are in the range of such numbers.
fn numbers_at(topo: &Topo, p: &Packet) -> Option<(u16, u16)>
    ensures { MatchOption result
        (declared.is_port topo.now (slice_index p.now 0) (slice_index p.now 1) ≡ false)
        (λ at. (at.0 ≡ slice_index p.now 0) × (at.1 ≡ slice_index p.now 1)) }
{
    are_numbers(topo.switches());
    match place(p, Fid::SWITCH) {
        Some(switch) => {
            are_numbers(topo.ports(switch));
            match place(p, Fid::PORT) {
                Some(port) => Some((switch, port)),
                None => None,
            }
        }
        None => None,
    }
}

/// A packet's number at a field, where it is one of a switch or a port.
fn place(p: &Packet, f: Fid) -> Option<u16>
    ensures { MatchOption result (65536 ≤ slice_index p.now f) (λ n. n ≡ slice_index p.now f) }
{
    let n = p.get(f);
    if n < 65_536 { Some(n as u16) } else { None }
}

/// Switches and ports are below 65,536.
fn are_numbers(numbers: &[u16])
    ensures { ArePlaceNumbers numbers.now }
{}
