//! The virtual links of a text.
ghost use Rattle.std.specs.Prelude.{◌≡◌, ◌++◌, ◌∷◌, [], is_some, OnErr, OnOk};
ghost use Rattle.nk_topo.specs.Topology.{Topology, is_target, link_from};
ghost use Rattle.nk_names.specs.ProgramOf.{virtual_topology};

use crate::virtual_link::VirtualLink;
use nk_field::List;
use std::alloc::{AllocError, Global};
use std::collections::HashSet;
use std::marker::Model;

/// Virtual links in the order of the text, and the ports where they begin and where they end.
#[derive(Drop)]
pub(crate) struct Virtuals {
    links: Vec<VirtualLink>,
    sources: HashSet<(u16, u16)>,
    targets: HashSet<(u16, u16)>,
}

impl Model for Virtuals {
    ghost use Rattle.std.specs.Prelude.{List as Items};
    ghost use Rattle.std.specs.Coded.{codes};
    ghost use Rattle.nk_names.specs.CodedPolicy.{coded_policy};
    ghost use Rattle.nk_names.specs.ProgramValue.{VirtualLink as Value'};
    ghost use Rattle.nk_names.specs.Virtual.{AreVirtualEnds};

    ghost Value = { Items Value' };

    ghost coded = { Prim.hlevel (codes, coded_policy) };

    ghost view = { λ v. v.links.items };

    ghost invariant = { λ v. AreVirtualEnds v.links.items v.sources.keys v.targets.keys };
}

impl Virtuals {
    /// No virtual link; it takes no memory.
    pub(crate) fn new(alloc: Global) -> Virtuals
        ensures { result ≡ [] }
    {
        Virtuals {
            links: Vec::new(alloc),
            sources: HashSet::new(alloc),
            targets: HashSet::new(alloc),
        }
    }

    /// Whether a virtual link begins at the port.
    pub(crate) fn is_source(&self, sw: u16, pt: u16) -> bool
        ensures { (topo : Topology)
            → result ≡ is_some (link_from (virtual_topology topo self.now) sw pt) }
    {
        self.sources.contains(&(sw, pt))
    }

    /// Whether a virtual link ends at the port.
    pub(crate) fn is_target(&self, sw: u16, pt: u16) -> bool
        ensures { (topo : Topology) → result ≡ is_target (virtual_topology topo self.now) sw pt }
    {
        self.targets.contains(&(sw, pt))
    }

    /// One more virtual link, after the others. Where memory ran out, nothing changed.
    pub(crate) fn add(&mut self, link: VirtualLink) -> Result<(), AllocError>
        ensures ok { OnOk result (self.new ≡ self.old ++ link ∷ []) }
        ensures kept { OnErr result (self.new ≡ self.old) }
    {
        let source = (link.from_switch, link.from_port);
        let target = (link.to_switch, link.to_port);
        self.links.reserve(1)?;
        self.sources.reserve(1)?;
        self.targets.reserve(1)?;
        self.sources.insert(source).unwrap();
        self.targets.insert(target).unwrap();
        self.links.push(link).unwrap();
        Ok(())
    }

    /// The virtual links, in the order of the text.
    pub(crate) fn into_list(self) -> List<VirtualLink>
        ensures { result ≡ self }
    {
        let Virtuals {
            links,
            sources: _,
            targets: _,
        } = self;
        List::from_vec(links)
    }
}
