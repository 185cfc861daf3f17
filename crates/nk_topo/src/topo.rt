//! Topologies.
ghost use Rattle.std.specs.Prelude.{◌≡◌, ℕ, ◌<◌, ◌==◌, true, false, [], map, AllPairs, IfOk, OnOk, OnErr, IsNone};
ghost use Rattle.std.specs.List.{list_any};
ghost use Rattle.nk_topo.specs.Topology.{IsTopology, no_topology, numbers_of, ports_of, with_sorted, with_switch, with_link};
ghost use Rattle.nk_topo.specs.Topology as declared;
ghost use Rattle.nk_topo.specs.Inside.{link_of};
ghost use Rattle.nk_topo.specs.Answers.{TopoReturns, switch_answer, link_answer};

use crate::search::{find_in, link_place, place_in, repeats, sorted};
use std::alloc::{AllocError, Global};
use std::collections::HashSet;
use std::marker::Model;
use thiserror::Error;

/// An end of a link.
#[derive(Clone, Copy, PartialEq, Eq, Debug)]
pub enum LinkEnd {
    /// The port where it begins.
    Source,
    /// The port where it ends.
    Target,
}

/// Why a switch or a link wasn't added.
#[derive(Clone, Copy, PartialEq, Eq, Debug, Error)]
pub enum TopoError {
    /// Memory ran out.
    #[error("no memory")]
    NoMemory,
    /// The switch is declared already.
    #[error("switch twice")]
    SwitchTwice,
    /// A port is given twice.
    #[error("port twice")]
    PortTwice,
    /// This end of a link is no declared port.
    #[error("no such port")]
    NoSuchPort(LinkEnd),
    /// A link begins at the source already.
    #[error("source twice")]
    SourceTwice,
    /// A link ends at the target already.
    #[error("target twice")]
    TargetTwice,
}

/// Switches with their ports, and links between declared ports: at most one begins at a port, and at most one ends there.
/// A contract sees it as a `Topology`: switches ascend by number, the ports of each ascend, and links ascend by source.
///
/// All are kept sorted, so adding a switch or a link moves those after it. A `TopoBuilder` is quicker where they come in
/// any order.
pub struct Topo {
    pub(crate) numbers: Vec<u16>,
    pub(crate) ports: Vec<Vec<u16>>,
    pub(crate) links: Vec<(u16, u16, u16, u16)>,
    pub(crate) targets: HashSet<(u16, u16)>,
}

impl Drop for Topo {
    fn drop(self) {
        let Self {
            numbers: _,
            ports: _,
            links: _,
            targets: _,
        } = self;
    }
}

impl Model for Topo {
    ghost use Rattle.std.specs.Prelude.{map};
    ghost use Rattle.nk_topo.specs.Topology.{Topology};
    ghost use Rattle.nk_topo.specs.Inside.{topology_with, IsHeld};

    ghost Value = { Topology };

    ghost view = { λ t. topology_with t.numbers.items (map (λ p. p.items) t.ports.items) t.links.items };

    ghost invariant = { λ t. IsHeld t.numbers.items (map (λ p. p.items) t.ports.items) t.links.items t.targets.keys };
}

impl Topo {
    /// The topology without a switch; it takes no memory.
    pub fn new(alloc: Global) -> Result<Topo, AllocError>
        ensures { IfOk result (λ t. t ≡ no_topology) }
    {
        Ok(Topo {
            numbers: Vec::new(alloc),
            ports: Vec::new(alloc),
            links: Vec::new(alloc),
            targets: HashSet::new(alloc),
        })
    }

    /// The numbers of the switches, ascending.
    pub fn switches(&self) -> &[u16]
        ensures numbers { result.now ≡ numbers_of self.now }
        ensures is { IsTopology self.now }
    {
        self.numbers.as_slice()
    }

    /// The ports of a switch, ascending; none where it isn't declared.
    pub fn ports(&self, sw: u16) -> &[u16]
        ensures ports { result.now ≡ ports_of self.now sw }
        ensures ascend { AllPairs (λ p q. p < q) result.now }
        ensures each { (pt : ℕ) → declared.is_port self.now sw pt
            ≡ list_any (λ p. p == pt) result.now }
    {
        match find_in(self.numbers.as_slice(), sw) {
            Some(place) => self.ports[place].as_slice(),
            None => &[],
        }
    }

    /// The links, each from a switch and port to a switch and port, ascending by where they begin.
    pub fn links(&self) -> &[(u16, u16, u16, u16)]
        ensures links { map link_of result.now ≡ self.now.links }
        ensures is { IsTopology self.now }
    {
        self.links.as_slice()
    }

    /// The switch and port where the link that begins at a port ends; `None` where no link begins there.
    pub fn link_from(&self, sw: u16, pt: u16) -> Option<(u16, u16)>
        ensures { result ≡ declared.link_from self.now sw pt }
    {
        let place = link_place(self.links.as_slice(), sw, pt);
        if place < self.links.len() {
            let (a, m, b, n) = self.links[place];
            if a == sw && m == pt {
                return Some((b, n));
            }
        }
        None
    }

    /// Whether the port is declared.
    pub fn is_port(&self, sw: u16, pt: u16) -> bool
        ensures { result ≡ declared.is_port self.now sw pt }
    {
        find_in(self.ports(sw), pt).is_some()
    }

    /// Whether the port is declared and no link begins there.
    pub fn is_edge(&self, sw: u16, pt: u16) -> bool
        ensures { result ≡ declared.is_edge self.now sw pt }
    {
        self.is_port(sw, pt) && self.link_from(sw, pt).is_none()
    }

    /// Whether the switch is declared.
    pub fn is_switch(&self, n: u16) -> bool
        ensures { result ≡ declared.is_switch self.now n }
    {
        find_in(self.numbers.as_slice(), n).is_some()
    }

    /// Whether a link ends at the port.
    fn is_target(&self, sw: u16, pt: u16) -> bool
        ensures { result ≡ declared.is_target self.now sw pt }
    {
        self.targets.contains(&(sw, pt))
    }

    /// Declares a switch with its ports, in any order. It is refused, and nothing changes, where the switch is declared
    /// already, or else where a port is given twice.
    pub fn add_switch(&mut self, n: u16, ports: &[u16]) -> Result<(), TopoError>
        ensures added { OnOk result (self.new ≡ with_switch self.old n ports.now) }
        ensures answer { TopoReturns result (switch_answer self.old n ports.now) }
        ensures kept { OnErr result (self.new ≡ self.old) }
    {
        if self.is_switch(n) {
            return Err(TopoError::SwitchTwice);
        }
        let sorted = match sorted(*self.numbers.allocator(), ports) {
            Ok(sorted) => sorted,
            Err(AllocError) => return Err(TopoError::NoMemory),
        };
        if repeats(sorted.as_slice()) {
            return Err(TopoError::PortTwice);
        }
        match self.put_switch(n, sorted) {
            Ok(()) => Ok(()),
            Err(AllocError) => Err(TopoError::NoMemory),
        }
    }

    /// Puts a new switch in its place.
    fn put_switch(&mut self, n: u16, ports: Vec<u16>) -> Result<(), AllocError>
        requires new { declared.is_switch self.old n ≡ false }
        requires ascend { AllPairs (λ p q. p < q) ports.items }
        ensures ok { OnOk result (self.new ≡ with_sorted self.old n ports.items) }
        ensures err { OnErr result (self.new ≡ self.old) }
    {
        let place = place_in(self.numbers.as_slice(), n);
        self.numbers.reserve(1)?;
        self.ports.insert(place, ports)?;
        self.numbers.insert(place, n).unwrap();
        Ok(())
    }

    /// Declares a link from port `m` of switch `a` to port `n` of switch `b`. It is refused, and nothing changes, for the
    /// first of these reasons that holds: the source is no declared port; the target is none; a link begins at the source
    /// already; one ends at the target already.
    pub fn add_link(&mut self, a: u16, m: u16, b: u16, n: u16) -> Result<(), TopoError>
        ensures added { OnOk result (self.new ≡ with_link self.old (link_of (a, m, b, n))) }
        ensures answer { TopoReturns result (link_answer self.old (link_of (a, m, b, n))) }
        ensures kept { OnErr result (self.new ≡ self.old) }
    {
        if !self.is_port(a, m) {
            return Err(TopoError::NoSuchPort(LinkEnd::Source));
        }
        if !self.is_port(b, n) {
            return Err(TopoError::NoSuchPort(LinkEnd::Target));
        }
        if self.link_from(a, m).is_some() {
            return Err(TopoError::SourceTwice);
        }
        if self.is_target(b, n) {
            return Err(TopoError::TargetTwice);
        }
        match self.put_link((a, m, b, n)) {
            Ok(()) => Ok(()),
            Err(AllocError) => Err(TopoError::NoMemory),
        }
    }

    /// Puts a new link in its place.
    fn put_link(&mut self, link: (u16, u16, u16, u16)) -> Result<(), AllocError>
        requires source { declared.is_port self.old link.0 link.1 ≡ true }
        requires target { declared.is_port self.old link.2 link.3 ≡ true }
        requires one_from { IsNone (declared.link_from self.old link.0 link.1) }
        requires one_to { declared.is_target self.old link.2 link.3 ≡ false }
        ensures ok { OnOk result (self.new ≡ with_link self.old (link_of link)) }
        ensures err { OnErr result (self.new ≡ self.old) }
    {
        let place = link_place(self.links.as_slice(), link.0, link.1);
        self.links.reserve(1)?;
        self.targets.insert((link.2, link.3))?;
        self.links.insert(place, link).unwrap();
        Ok(())
    }

    /// A copy of the topology. The only error is that memory ran out.
    pub fn copy(&self) -> Result<Topo, AllocError>
        ensures { IfOk result (λ t. t ≡ self.now) }
    {
        let alloc = *self.numbers.allocator();
        let numbers = Vec::from_slice(alloc, self.numbers.as_slice())?;
        let ports = copies(alloc, self.ports.as_slice())?;
        let links = Vec::from_slice(alloc, self.links.as_slice())?;
        let targets = self.targets.clone()?;
        Ok(Topo {
            numbers,
            ports,
            links,
            targets,
        })
    }
}

/// A copy of each list, in order.
fn copies(alloc: Global, lists: &[Vec<u16>]) -> Result<Vec<Vec<u16>>, AllocError>
    ensures { IfOk result (λ all. map (λ p. p.items) all.items ≡ map (λ p. p.items) lists.now) }
{
    let mut all = Vec::new(alloc);
    for list in lists {
        all.push(Vec::from_slice(alloc, list.as_slice())?)?;
    }
    Ok(all)
}
