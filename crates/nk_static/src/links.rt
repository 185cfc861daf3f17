//! Links that literals are looked up in.
ghost use Rattle.std.specs.Prelude.{◌≡◌, map, ◌==◌, ◌&&◌};
ghost use Rattle.std.specs.List.{list_any};
ghost use Rattle.nk_topo.specs.Inside.{link_of};
ghost use Rattle.nk_static.specs.Links.{links_of, is_link_of, is_place};

use indexmap::IndexSet;
use nk_topo::Topo;

/// Links: those of a topology, where one begins at each port at most, or any others.
#[derive(Clone, Copy)]
pub enum Links<'a> {
    /// The links that a topology declares.
    Declared(&'a Topo),
    /// These links, each told by the switch and port that it begins at and those that it ends at.
    Listed(&'a IndexSet<(u16, u16, u16, u16)>),
}

/// Whether one of the links leads from one place to another.
pub fn has_link(links: &Links, from: (u16, u16), to: (u16, u16)) -> bool
    ensures { result ≡ list_any (is_link_of from.0 from.1 to.0 to.1) (links_of links.now) }
{
    match links {
        Links::Declared(topo) => is_declared(topo, from, to),
        Links::Listed(listed) => is_listed(listed, from, to),
    }
}

/// Whether a topology has a link from one place to another.
fn is_declared(topo: &Topo, from: (u16, u16), to: (u16, u16)) -> bool
    ensures { result ≡ list_any (is_link_of from.0 from.1 to.0 to.1) topo.now.links }
{
    let _switches = topo.switches();
    is_at(topo.link_from(from.0, from.1), to.0, to.1)
}

/// Whether the place that was found is this one.
fn is_at(found: Option<(u16, u16)>, sw: u16, pt: u16) -> bool
    ensures { result ≡ is_place found sw pt }
{
    match found {
        Some(place) => place.0 == sw && place.1 == pt,
        None => false,
    }
}

/// Whether one of the listed links leads from one place to another.
fn is_listed(listed: &IndexSet<(u16, u16, u16, u16)>, from: (u16, u16), to: (u16, u16)) -> bool
    ensures { result ≡ list_any (is_link_of from.0 from.1 to.0 to.1) (map link_of listed.now.keys) }
{
    listed.contains(&(from.0, from.1, to.0, to.1))
}
