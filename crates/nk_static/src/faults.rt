//! The first reason that a policy's text shows.
ghost use Rattle.std.specs.Prelude.{◌≡◌, map};
ghost use Rattle.nk_policy.specs.Tree.{tree_of};
ghost use Rattle.nk_topo.specs.Inside.{link_of};
ghost use Rattle.nk_static.specs.Links.{links_of};
ghost use Rattle.nk_static.specs.StaticFaults.{static_fault_of};

use crate::leaf_test::{LeafTest, holds_leaf};
use crate::links::Links;
use indexmap::IndexSet;
use nk_field::Fid;
use nk_policy::Pol;
use nk_topo::Topo;
use thiserror::Error;

/// What a policy's text shows against it. The first that holds, in this order, is told.
#[derive(Clone, Copy, PartialEq, Eq, Debug, Error)]
pub enum StaticFault {
    /// The policy tests the tag, by a value or a range, or sets it.
    #[error("tag used")]
    TagUsed,
    /// A dup stands outside of a link literal.
    #[error("loose dup")]
    LooseDup,
    /// An assignment of the switch stands outside of a link literal.
    #[error("switch set")]
    SwitchSet,
    /// A link literal is none of the links.
    #[error("no such link")]
    NoSuchLink,
}

/// What is seen of a policy over the links of a topology.
pub fn static_fault(p: &Pol, topo: &Topo, tag: Fid) -> Option<StaticFault>
    ensures { result ≡ static_fault_of tag topo.now.links (tree_of p.now) }
{
    first_static_fault(p, &Links::Declared(topo), tag)
}

/// What is seen of a policy over these links, each told by the switch and port that it begins at and those that it ends at.
pub fn static_fault_among(
    p: &Pol,
    links: &IndexSet<(u16, u16, u16, u16)>,
    tag: Fid,
) -> Option<StaticFault>
    ensures { result ≡ static_fault_of tag (map link_of links.now.keys) (tree_of p.now) }
{
    first_static_fault(p, &Links::Listed(links), tag)
}

/// What is seen of a policy over links. A text that shows nothing is gone through once.
fn first_static_fault(p: &Pol, links: &Links, tag: Fid) -> Option<StaticFault>
    ensures { result ≡ static_fault_of tag (links_of links.now) (tree_of p.now) }
{
    if !holds_leaf(p, links, &LeafTest::AnyOf(tag)) {
        None
    } else if holds_leaf(p, links, &LeafTest::OnField(tag)) {
        Some(StaticFault::TagUsed)
    } else if holds_leaf(p, links, &LeafTest::LooseDup) {
        Some(StaticFault::LooseDup)
    } else if holds_leaf(p, links, &LeafTest::SwitchAssignment) {
        Some(StaticFault::SwitchSet)
    } else if holds_leaf(p, links, &LeafTest::LinkOutside) {
        Some(StaticFault::NoSuchLink)
    } else {
        None
    }
}
