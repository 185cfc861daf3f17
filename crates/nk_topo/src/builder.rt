//! A topology in the making.
ghost use Rattle.std.specs.Prelude.{◌≡◌, ◌<◌, false, true, map, AllPairs, IfOk, OnOk, OnErr, IsNone, is_some};
ghost use Rattle.nk_topo.specs.Topology.{Topology, no_topology, with_sorted, with_switch, with_link};
ghost use Rattle.nk_topo.specs.Topology as declared;
ghost use Rattle.nk_topo.specs.Inside.{link_of};
ghost use Rattle.nk_topo.specs.Gathered.{four_of};
ghost use Rattle.nk_topo.specs.Answers.{TopoReturns, switch_answer, link_answer};

use crate::search::{find_in, repeats, sorted};
use crate::topo::{LinkEnd, Topo, TopoError};
use std::alloc::{AllocError, Global};
use std::collections::{BTreeMap, HashSet};
use std::marker::Model;

/// A topology in the making. Switches and links may be declared in any order; each takes the time of a search in a map,
/// and they are listed once, at the end. A contract sees it as the `Topology` that is declared so far.
pub struct TopoBuilder {
    alloc: Global,
    switches: BTreeMap<u16, Vec<u16>>,
    links: BTreeMap<(u16, u16), (u16, u16)>,
    targets: HashSet<(u16, u16)>,
}

impl Drop for TopoBuilder {
    fn drop(self) {
        let Self {
            alloc: _,
            switches: _,
            links: _,
            targets: _,
        } = self;
    }
}

impl Model for TopoBuilder {
    ghost use Rattle.std.specs.Prelude.{map};
    ghost use Rattle.nk_topo.specs.Topology.{Topology};
    ghost use Rattle.nk_topo.specs.Gathered.{switch_of, topology_from, IsGathered};

    ghost Value = { Topology };

    ghost view = { λ t. topology_from (map (λ e. switch_of e.0 e.1.items) t.switches.entries) t.links.entries };

    ghost invariant = { λ t. IsGathered (map (λ e. switch_of e.0 e.1.items) t.switches.entries) t.links.entries t.targets.keys };
}

impl TopoBuilder {
    /// Nothing is declared yet; it takes no memory.
    pub fn new(alloc: Global) -> TopoBuilder
        ensures { result ≡ no_topology }
    {
        TopoBuilder {
            alloc,
            switches: BTreeMap::new(alloc),
            links: BTreeMap::new(alloc),
            targets: HashSet::new(alloc),
        }
    }

    /// Whether the switch is declared.
    pub fn is_switch(&self, n: u16) -> bool
        ensures { result ≡ declared.is_switch self.now n }
    {
        self.switches.contains_key(&n)
    }

    /// Whether the port is declared.
    pub fn is_port(&self, sw: u16, pt: u16) -> bool
        ensures { result ≡ declared.is_port self.now sw pt }
    {
        match self.switches.get(&sw) {
            Some(ports) => find_in(ports.as_slice(), pt).is_some(),
            None => false,
        }
    }

    /// Whether a link begins at the port.
    fn is_source(&self, sw: u16, pt: u16) -> bool
        ensures { result ≡ is_some (declared.link_from self.now sw pt) }
    {
        self.links.contains_key(&(sw, pt))
    }

    /// Whether a link ends at the port.
    fn is_target(&self, sw: u16, pt: u16) -> bool
        ensures { result ≡ declared.is_target self.now sw pt }
    {
        self.targets.contains(&(sw, pt))
    }

    /// Declares a switch with its ports, in any order.
    ///
    /// It is refused, and nothing changes, where the switch is declared already, or else where a port is given twice.
    pub fn add_switch(&mut self, n: u16, ports: &[u16]) -> Result<(), TopoError>
        ensures added { OnOk result (self.new ≡ with_switch self.old n ports.now) }
        ensures answer { TopoReturns result (switch_answer self.old n ports.now) }
        ensures kept { OnErr result (self.new ≡ self.old) }
    {
        if self.is_switch(n) {
            return Err(TopoError::SwitchTwice);
        }
        let sorted = match sorted(self.alloc, ports) {
            Ok(sorted) => sorted,
            Err(AllocError) => return Err(TopoError::NoMemory),
        };
        if repeats(sorted.as_slice()) {
            return Err(TopoError::PortTwice);
        }
        match self.put_switch(n, sorted) {
            Ok(()) => Ok(()),
            Err(AllocError) => Err(TopoError::NoMemory),
        }
    }

    /// Puts a new switch in its place.
    fn put_switch(&mut self, n: u16, ports: Vec<u16>) -> Result<(), AllocError>
        requires new { declared.is_switch self.old n ≡ false }
        requires ascend { AllPairs (λ p q. p < q) ports.items }
        ensures ok { OnOk result (self.new ≡ with_sorted self.old n ports.items) }
        ensures err { OnErr result (self.new ≡ self.old) }
    {
        self.switches.insert(n, ports)?;
        Ok(())
    }

    /// Declares a link from port `m` of switch `a` to port `n` of switch `b`.
    ///
    /// It is refused, and nothing changes, for the first of these reasons that holds: the source is no declared port;
    /// the target is none; a link begins at the source already; one ends at the target already.
    pub fn add_link(&mut self, a: u16, m: u16, b: u16, n: u16) -> Result<(), TopoError>
        ensures added { OnOk result (self.new ≡ with_link self.old (link_of (a, m, b, n))) }
        ensures answer { TopoReturns result (link_answer self.old (link_of (a, m, b, n))) }
        ensures kept { OnErr result (self.new ≡ self.old) }
    {
        if !self.is_port(a, m) {
            return Err(TopoError::NoSuchPort(LinkEnd::Source));
        }
        if !self.is_port(b, n) {
            return Err(TopoError::NoSuchPort(LinkEnd::Target));
        }
        if self.is_source(a, m) {
            return Err(TopoError::SourceTwice);
        }
        if self.is_target(b, n) {
            return Err(TopoError::TargetTwice);
        }
        match self.put_link((a, m), (b, n)) {
            Ok(()) => Ok(()),
            Err(AllocError) => Err(TopoError::NoMemory),
        }
    }

    /// Puts a new link in its place.
    fn put_link(&mut self, source: (u16, u16), target: (u16, u16)) -> Result<(), AllocError>
        requires source { declared.is_port self.old source.0 source.1 ≡ true }
        requires target { declared.is_port self.old target.0 target.1 ≡ true }
        requires one_from { IsNone (declared.link_from self.old source.0 source.1) }
        requires one_to { declared.is_target self.old target.0 target.1 ≡ false }
        ensures ok { OnOk result
            (self.new ≡ with_link self.old (link_of (four_of (source, target)))) }
        ensures err { OnErr result (self.new ≡ self.old) }
    {
        self.targets.reserve(1)?;
        self.links.insert(source, target)?;
        self.targets.insert(target).unwrap();
        Ok(())
    }

    /// The topology that is declared, with its switches and links in order. The only error is that memory ran out.
    pub fn finish(self) -> Result<Topo, AllocError>
        ensures { IfOk result (λ t. t ≡ self) }
    {
        let TopoBuilder {
            alloc,
            switches,
            links,
            targets,
        } = self;
        let (numbers, ports) = listed(alloc, switches)?;
        let links = listed_links(alloc, links)?;
        Ok(Topo {
            numbers,
            ports,
            links,
            targets,
        })
    }
}

/// The numbers of the switches, ascending, and the ports of each.
fn listed(
    alloc: Global,
    switches: BTreeMap<u16, Vec<u16>>,
) -> Result<(Vec<u16>, Vec<Vec<u16>>), AllocError>
    ensures numbers { IfOk result (λ r. r.0.items ≡ map (λ e. e.0) switches.entries) }
    ensures ports { IfOk result
        (λ r. map (λ p. p.items) r.1.items ≡ map (λ e. e.1.items) switches.entries) }
{
    let mut numbers = Vec::new(alloc);
    let mut lists = Vec::new(alloc);
    for (number, ports) in switches {
        numbers.push(number)?;
        lists.push(ports)?;
    }
    Ok((numbers, lists))
}

/// The links, ascending by where they begin.
fn listed_links(
    alloc: Global,
    links: BTreeMap<(u16, u16), (u16, u16)>,
) -> Result<Vec<(u16, u16, u16, u16)>, AllocError>
    ensures { IfOk result (λ all. all.items ≡ map four_of links.entries) }
{
    let mut all = Vec::new(alloc);
    for ((a, m), (b, n)) in links {
        all.push((a, m, b, n))?;
    }
    Ok(all)
}
