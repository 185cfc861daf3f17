//! The size of a physical policy, told before it is made.
ghost use Rattle.std.specs.Prelude.{◌≡◌, ℕ, map, min, IfOk};
ghost use Rattle.nk_policy.specs.Policy.{sizes_of};
ghost use Rattle.nk_policy.specs.Tree.{tree_of, trees_of};
ghost use Rattle.nk_topo.specs.Inside.{link_of};
ghost use Rattle.nk_virtual.specs.Physical.{physical, all_physical, link_through};
ghost use Rattle.nk_virtual.specs.Sizes.{size_within, fabric_size};

use crate::literal::{Ends, place_of};
use indexmap::IndexSet;
use nk_names::VirtualLink;
use nk_policy::{Pol, size};
use std::alloc::{AllocError, Global};

const LAST: u64 = u64::MAX;

/// How many elements the physical policy has, at most the last u64.
pub(crate) fn physical_size(
    alloc: Global,
    links: &[VirtualLink],
    ends: &IndexSet<Ends>,
    p: &Pol,
) -> Result<u64, AllocError>
    requires { map link_of ends.now.keys ≡ map (λ k. k.ends) links.now }
    ensures { IfOk result (λ n. n ≡ size_within (physical links.now (tree_of p.now))) }
{
    let sizes = fabric_sizes(alloc, links)?;
    Ok(replaced_size(links, ends, sizes.as_slice(), p))
}

/// How many elements the fabric of each virtual link has. Each is written out, and dropped once it is measured.
fn fabric_sizes(alloc: Global, links: &[VirtualLink]) -> Result<Vec<u64>, AllocError>
    ensures { IfOk result (λ sizes. sizes.items ≡ map fabric_size links.now) }
{
    let mut sizes = Vec::new(alloc);
    for k in links {
        let fabric = k.fabric.written(alloc)?;
        sizes.push(size(&fabric))?;
    }
    Ok(sizes)
}

/// How many elements a policy has once each literal of a virtual link is replaced.
#[cycle(replaced_size)]
#[tactic(auto, using(nk_policy::proofs::Trees::tree_of_sum, nk_policy::proofs::Trees::tree_of_seq))]
fn replaced_size(links: &[VirtualLink], ends: &IndexSet<Ends>, sizes: &[u64], p: &Pol) -> u64
    requires ends { map link_of ends.now.keys ≡ map (λ k. k.ends) links.now }
    requires sizes { sizes.now ≡ map fabric_size links.now }
    ensures { result ≡ size_within (physical links.now (tree_of p.now)) }
{
    match p {
        Pol::Test(_, _) | Pol::Range(_, _, _) | Pol::Set(_, _) | Pol::Dup(_) => 1,
        Pol::Link(a, m, b, n, _) => through_size(links, ends, sizes, (*a, *m, *b, *n)),
        Pol::Sum(ps) | Pol::Seq(ps) => {
            let parts = all_sizes(links, ends, sizes, ps.as_slice());
            parts.saturating_add(1)
        }
        Pol::Not(q) => size(q).saturating_add(1),
        Pol::Star(q) => replaced_size(links, ends, sizes, q).saturating_add(1),
    }
}

#[cycle(replaced_size)]
fn all_sizes(links: &[VirtualLink], ends: &IndexSet<Ends>, sizes: &[u64], ps: &[Pol]) -> u64
    requires ends { map link_of ends.now.keys ≡ map (λ k. k.ends) links.now }
    requires sizes { sizes.now ≡ map fabric_size links.now }
    ensures { result ≡ min (sizes_of (all_physical links.now (trees_of ps.now))) LAST }
{
    let mut total: u64 = 0;
    for q in ps {
        total = total.saturating_add(replaced_size(links, ends, sizes, q));
    }
    total
}

/// How many elements stand for a link literal.
fn through_size(links: &[VirtualLink], ends: &IndexSet<Ends>, sizes: &[u64], literal: Ends) -> u64
    requires ends { map link_of ends.now.keys ≡ map (λ k. k.ends) links.now }
    requires sizes { sizes.now ≡ map fabric_size links.now }
    ensures { (l : ℕ) → result
        ≡ size_within (link_through links.now literal.0 literal.1 literal.2 literal.3 l) }
{
    match place_of(links, ends, literal) {
        Some(place) => sizes[place].saturating_add(3),
        None => 1,
    }
}
