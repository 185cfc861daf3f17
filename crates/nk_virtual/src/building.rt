//! The physical policy.
ghost use Rattle.std.specs.Prelude.{◌≡◌, ◌≤◌, map, IfOk};
ghost use Rattle.nk_topo.specs.Inside.{link_of};
ghost use Rattle.nk_policy.specs.Policy.{size_of, marked_from};
ghost use Rattle.nk_policy.specs.Tree.{tree_of, trees_of};
ghost use Rattle.nk_virtual.specs.Answers.{IsBuilding};
ghost use Rattle.nk_virtual.specs.Physical.{physical as physical_of, all_physical, link_through, through_fabric as fabric_of};

use crate::literal::{Ends, place_of};
use crate::measure::physical_size;
use crate::refusal::{VirtualError, VirtualRefusal};
use indexmap::IndexSet;
use nk_field::Fid;
use nk_names::VirtualLink;
use nk_policy::{Pol, Pols, marked};
use std::alloc::{AllocError, Global};

const MOST: u64 = 1_048_576;

/// The policy with each literal of a virtual link replaced by the link's fabric, its dups numbered from 1.
pub(crate) fn expanded(
    alloc: Global,
    links: &[VirtualLink],
    ends: &IndexSet<Ends>,
    p: &Pol,
) -> Result<Pol, VirtualError>
    requires { map link_of ends.now.keys ≡ map (λ k. k.ends) links.now }
    ensures { IsBuilding (physical_of links.now (tree_of p.now)) result }
{
    if physical_size(alloc, links, ends, p)? > MOST {
        return Err(VirtualError::Refused(VirtualRefusal::TooLarge));
    }
    let q = replaced(alloc, links, ends, p)?;
    let q = numbered(alloc, &q)?;
    Ok(q)
}

/// The policy with each literal of a virtual link replaced.
#[cycle(replace)]
#[tactic(auto, using(nk_policy::proofs::Trees::tree_of_sum, nk_policy::proofs::Trees::tree_of_seq))]
fn replaced(
    alloc: Global,
    links: &[VirtualLink],
    ends: &IndexSet<Ends>,
    p: &Pol,
) -> Result<Pol, AllocError>
    requires { map link_of ends.now.keys ≡ map (λ k. k.ends) links.now }
    ensures { IfOk result (λ q. tree_of q ≡ physical_of links.now (tree_of p.now)) }
{
    match p {
        Pol::Test(f, n) => Ok(Pol::Test(*f, *n)),
        Pol::Range(f, low, high) => Ok(Pol::Range(*f, *low, *high)),
        Pol::Set(f, n) => Ok(Pol::Set(*f, *n)),
        Pol::Sum(ps) => Ok(Pol::Sum(Pols::new(all_replaced(alloc, links, ends, ps.as_slice())?))),
        Pol::Seq(ps) => Ok(Pol::Seq(Pols::new(all_replaced(alloc, links, ends, ps.as_slice())?))),
        Pol::Not(q) => Ok(Pol::Not(Box::new(alloc, q.copy(alloc)?)?)),
        Pol::Star(q) => Ok(Pol::Star(Box::new(alloc, replaced(alloc, links, ends, q)?)?)),
        Pol::Dup(l) => Ok(Pol::Dup(*l)),
        Pol::Link(a, m, b, n, l) => through(alloc, links, ends, (*a, *m, *b, *n), *l),
    }
}

#[cycle(replace)]
#[tactic(auto, using(nk_policy::proofs::Trees::joined_push, nk_policy::proofs::Trees::joined_none))]
fn all_replaced(
    alloc: Global,
    links: &[VirtualLink],
    ends: &IndexSet<Ends>,
    ps: &[Pol],
) -> Result<Vec<Pol>, AllocError>
    requires { map link_of ends.now.keys ≡ map (λ k. k.ends) links.now }
    ensures { IfOk result (λ qs. trees_of qs.items ≡ all_physical links.now (trees_of ps.now)) }
{
    let mut out = Vec::new(alloc);
    for q in ps {
        out.push(replaced(alloc, links, ends, q)?)?;
    }
    Ok(out)
}

/// What stands for a link literal.
fn through(
    alloc: Global,
    links: &[VirtualLink],
    ends: &IndexSet<Ends>,
    literal: Ends,
    mark: u32,
) -> Result<Pol, AllocError>
    requires { map link_of ends.now.keys ≡ map (λ k. k.ends) links.now }
    ensures { IfOk result (λ q. tree_of q
        ≡ link_through links.now literal.0 literal.1 literal.2 literal.3 mark) }
{
    match place_of(links, ends, literal) {
        Some(place) => through_fabric(alloc, &links[place]),
        None => Ok(Pol::Link(literal.0, literal.1, literal.2, literal.3, mark)),
    }
}

/// What stands for a literal of a virtual link.
#[tactic(auto, using(nk_policy::proofs::Trees::tree_of_seq))]
fn through_fabric(alloc: Global, k: &VirtualLink) -> Result<Pol, AllocError>
    ensures { IfOk result (λ q. tree_of q ≡ fabric_of k.now) }
{
    let fabric = k.fabric.written(alloc)?;
    let parts = vec![in alloc;
        Pol::Test(Fid::SWITCH, u64::from(k.from_switch)),
        Pol::Test(Fid::PORT, u64::from(k.from_port)),
        fabric,
    ]?;
    Ok(Pol::Seq(Pols::new(parts)))
}

/// The policy, its dups numbered from 1.
#[tactic(auto, using(nk_names::proofs::Good::few_dups))]
fn numbered(alloc: Global, q: &Pol) -> Result<Pol, AllocError>
    requires small { size_of (tree_of q.now) ≤ 1048576 }
    ensures { IfOk result (λ r. tree_of r ≡ marked_from (tree_of q.now) 1) }
{
    marked(alloc, q, 1)
}
