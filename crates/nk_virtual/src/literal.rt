//! Literals of virtual links.
ghost use Rattle.std.specs.Prelude.{◌≡◌, ◌<◌, length, map, position, AllPairs, IfOk, IfSome};
ghost use Rattle.nk_topo.specs.Inside.{link_of};
ghost use Rattle.nk_names.specs.ProgramValue.{HaveOneSource};
ghost use Rattle.nk_virtual.specs.Physical.{has_ends};

use indexmap::IndexSet;
use nk_names::VirtualLink;
use std::alloc::{AllocError, Global};

/// The ends of a link: the switch and port where it begins, then those where it ends.
pub(crate) type Ends = (u16, u16, u16, u16);

/// The ends of virtual links, no two of which begin at one port, in their order.
pub(crate) fn ends_of(alloc: Global, links: &[VirtualLink]) -> Result<IndexSet<Ends>, AllocError>
    requires { AllPairs (λ k l. ¬ (HaveOneSource k l)) links.now }
    ensures { IfOk result (λ ends. map link_of ends.keys ≡ map (λ k. k.ends) links.now) }
{
    let mut ends = IndexSet::new(alloc);
    for k in links {
        ends.insert((k.from_switch, k.from_port, k.to_switch, k.to_port))?;
    }
    Ok(ends)
}

/// The place of the first virtual link with the ends of a literal.
pub(crate) fn place_of(links: &[VirtualLink], ends: &IndexSet<Ends>, literal: Ends) -> Option<usize>
    requires { map link_of ends.now.keys ≡ map (λ k. k.ends) links.now }
    ensures place { result ≡ position (has_ends literal.0 literal.1 literal.2 literal.3)
        (map (λ k. k.ends) links.now) }
    ensures within { IfSome result (λ i. i < length links.now) }
{
    ends.get_index_of(&literal)
}
