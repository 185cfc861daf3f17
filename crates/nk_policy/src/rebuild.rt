//! Policies made from others.
ghost use Rattle.std.specs.Prelude.{◌≡◌, ◌+◌, ◌-◌, ◌<◌, ◌≤◌, ◌^◌, IfOk, OnOk};
ghost use Rattle.nk_policy.specs.Policy.{dups_of, dups_of_all, marked_from, all_marked_from, without_links, all_without_links, seq_of, link_parts as link_parts_of, MarksBelow, AllMarksBelow};
ghost use Rattle.nk_policy.specs.Tree.{tree_of, trees_of};

use crate::policy::{Pol, Pols};
use nk_field::Fid;
use std::alloc::{AllocError, Global};

/// A copy of the policy with its dups numbered from `first` on in text order, a link counting as two. The only error is that
/// memory ran out.
pub fn marked(alloc: Global, p: &Pol, first: u32) -> Result<Pol, AllocError>
    requires positive { 1 ≤ first }
    requires fit { first + dups_of (tree_of p.now) ≤ 2 ^ 32 }
    ensures { IfOk result (λ q. tree_of q ≡ marked_from (tree_of p.now) first) }
{
    let mut next = u64::from(first);
    renumbered(alloc, p, &mut next)
}

#[cycle(renumber)]
#[tactic(auto, using(crate::proofs::Trees::tree_of_sum, crate::proofs::Trees::tree_of_seq))]
fn renumbered(alloc: Global, p: &Pol, next: &mut u64) -> Result<Pol, AllocError>
    requires fit { next.old + dups_of (tree_of p.now) ≤ 2 ^ 32 }
    ensures tree { IfOk result (λ q. tree_of q ≡ marked_from (tree_of p.now) next.old) }
    ensures next { OnOk result (next.new ≡ next.old + dups_of (tree_of p.now)) }
{
    match p {
        Pol::Test(f, n) => Ok(Pol::Test(*f, *n)),
        Pol::Range(f, lo, hi) => Ok(Pol::Range(*f, *lo, *hi)),
        Pol::Set(f, n) => Ok(Pol::Set(*f, *n)),
        Pol::Sum(ps) => Ok(Pol::Sum(Pols::new(all_renumbered(alloc, ps.as_slice(), next)?))),
        Pol::Seq(ps) => Ok(Pol::Seq(Pols::new(all_renumbered(alloc, ps.as_slice(), next)?))),
        Pol::Not(q) => Ok(Pol::Not(Box::new(alloc, renumbered(alloc, q, next)?)?)),
        Pol::Star(q) => Ok(Pol::Star(Box::new(alloc, renumbered(alloc, q, next)?)?)),
        Pol::Dup(_) => {
            let mark = *next as u32;
            *next += 1;
            Ok(Pol::Dup(mark))
        }
        Pol::Link(a, m, b, n, _) => {
            let mark = *next as u32;
            *next += 2;
            Ok(Pol::Link(*a, *m, *b, *n, mark))
        }
    }
}

#[cycle(renumber)]
#[tactic(auto, using(crate::proofs::Trees::joined_push, crate::proofs::Trees::joined_none))]
fn all_renumbered(alloc: Global, ps: &[Pol], next: &mut u64) -> Result<Vec<Pol>, AllocError>
    requires fit { next.old + dups_of_all (trees_of ps.now) ≤ 2 ^ 32 }
    ensures trees { IfOk result
        (λ qs. trees_of qs.items ≡ all_marked_from (trees_of ps.now) next.old) }
    ensures next { OnOk result (next.new ≡ next.old + dups_of_all (trees_of ps.now)) }
{
    let mut out = Vec::with_capacity(alloc, ps.len())?;
    for q in ps {
        out.push(renumbered(alloc, q, next)?)?;
    }
    Ok(out)
}

/// A copy of the policy with each link literal written out as its six parts. The only error is that memory ran out.
#[cycle(expand)]
#[tactic(auto, using(crate::proofs::Trees::tree_of_sum, crate::proofs::Trees::tree_of_seq))]
pub fn expand_links(alloc: Global, p: &Pol) -> Result<Pol, AllocError>
    requires marks { MarksBelow (tree_of p.now) (2 ^ 32 - 1) }
    ensures { IfOk result (λ q. tree_of q ≡ without_links (tree_of p.now)) }
{
    match p {
        Pol::Test(f, n) => Ok(Pol::Test(*f, *n)),
        Pol::Range(f, lo, hi) => Ok(Pol::Range(*f, *lo, *hi)),
        Pol::Set(f, n) => Ok(Pol::Set(*f, *n)),
        Pol::Sum(ps) => Ok(Pol::Sum(Pols::new(all_expanded(alloc, ps.as_slice())?))),
        Pol::Seq(ps) => Ok(Pol::Seq(Pols::new(all_expanded(alloc, ps.as_slice())?))),
        Pol::Not(q) => Ok(Pol::Not(Box::new(alloc, expand_links(alloc, q)?)?)),
        Pol::Star(q) => Ok(Pol::Star(Box::new(alloc, expand_links(alloc, q)?)?)),
        Pol::Dup(l) => Ok(Pol::Dup(*l)),
        Pol::Link(a, m, b, n, l) => link_parts(alloc, *a, *m, *b, *n, *l),
    }
}

#[cycle(expand)]
#[tactic(auto, using(crate::proofs::Trees::joined_push, crate::proofs::Trees::joined_none))]
fn all_expanded(alloc: Global, ps: &[Pol]) -> Result<Vec<Pol>, AllocError>
    requires marks { AllMarksBelow (trees_of ps.now) (2 ^ 32 - 1) }
    ensures { IfOk result (λ qs. trees_of qs.items ≡ all_without_links (trees_of ps.now)) }
{
    let mut out = Vec::new(alloc);
    for q in ps {
        out.push(expand_links(alloc, q)?)?;
    }
    Ok(out)
}

/// The six parts that a link literal stands for.
#[tactic(auto, using(crate::proofs::Trees::tree_of_seq))]
fn link_parts(alloc: Global, a: u16, m: u16, b: u16, n: u16, mark: u32) -> Result<Pol, AllocError>
    requires { mark + 1 < 2 ^ 32 }
    ensures { IfOk result (λ q. tree_of q ≡ seq_of (link_parts_of a m b n mark)) }
{
    let parts = vec![in alloc;
        Pol::Test(Fid::SWITCH, u64::from(a)),
        Pol::Test(Fid::PORT, u64::from(m)),
        Pol::Dup(mark),
        Pol::Set(Fid::SWITCH, u64::from(b)),
        Pol::Set(Fid::PORT, u64::from(n)),
        Pol::Dup(mark + 1),
    ]?;
    Ok(Pol::Seq(Pols::new(parts)))
}

impl Pol {
    /// A copy of the policy. The only error is that memory ran out.
    pub fn copy(&self, alloc: Global) -> Result<Pol, AllocError>
        ensures { IfOk result (λ q. tree_of q ≡ tree_of self.now) }
    {
        copied(alloc, self)
    }
}

/// A copy of the policy. The only error is that memory ran out.
#[cycle(copy)]
#[tactic(auto, using(crate::proofs::Trees::tree_of_sum, crate::proofs::Trees::tree_of_seq))]
fn copied(alloc: Global, p: &Pol) -> Result<Pol, AllocError>
    ensures { IfOk result (λ q. tree_of q ≡ tree_of p.now) }
{
    match p {
        Pol::Test(f, n) => Ok(Pol::Test(*f, *n)),
        Pol::Range(f, lo, hi) => Ok(Pol::Range(*f, *lo, *hi)),
        Pol::Set(f, n) => Ok(Pol::Set(*f, *n)),
        Pol::Sum(ps) => Ok(Pol::Sum(Pols::new(all_copied(alloc, ps.as_slice())?))),
        Pol::Seq(ps) => Ok(Pol::Seq(Pols::new(all_copied(alloc, ps.as_slice())?))),
        Pol::Not(q) => Ok(Pol::Not(Box::new(alloc, copied(alloc, q)?)?)),
        Pol::Star(q) => Ok(Pol::Star(Box::new(alloc, copied(alloc, q)?)?)),
        Pol::Dup(l) => Ok(Pol::Dup(*l)),
        Pol::Link(a, m, b, n, l) => Ok(Pol::Link(*a, *m, *b, *n, *l)),
    }
}

/// The parts once more, in order.
#[cycle(copy)]
#[tactic(auto, using(crate::proofs::Trees::joined_push, crate::proofs::Trees::joined_none))]
fn all_copied(alloc: Global, ps: &[Pol]) -> Result<Vec<Pol>, AllocError>
    ensures { IfOk result (λ qs. trees_of qs.items ≡ trees_of ps.now) }
{
    let mut out = Vec::new(alloc);
    for q in ps {
        out.push(copied(alloc, q)?)?;
    }
    Ok(out)
}
