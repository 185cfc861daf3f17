//! Where a policy ends, whatever it records.
ghost use Rattle.std.specs.Prelude.{◌≡◌, IfOk};
ghost use Rattle.nk_policy.specs.Tree.{tree_of, trees_of};
ghost use Rattle.nk_virtual.specs.Endings.{without_records as bare_of, all_without_records, move_alone as move_of};

use nk_field::Fid;
use nk_policy::{Pol, Pols};
use std::alloc::{AllocError, Global};

/// The policy with its dups left out. The only error is that memory ran out.
#[cycle(leave_out)]
#[tactic(auto, using(nk_policy::proofs::Trees::tree_of_sum, nk_policy::proofs::Trees::tree_of_seq))]
pub(crate) fn without_records(alloc: Global, p: &Pol) -> Result<Pol, AllocError>
    ensures { IfOk result (λ q. tree_of q ≡ bare_of (tree_of p.now)) }
{
    match p {
        Pol::Test(f, n) => Ok(Pol::Test(*f, *n)),
        Pol::Range(f, low, high) => Ok(Pol::Range(*f, *low, *high)),
        Pol::Set(f, n) => Ok(Pol::Set(*f, *n)),
        Pol::Sum(ps) => Ok(Pol::Sum(Pols::new(all_bare(alloc, ps.as_slice())?))),
        Pol::Seq(ps) => Ok(Pol::Seq(Pols::new(all_bare(alloc, ps.as_slice())?))),
        Pol::Not(q) => Ok(Pol::Not(Box::new(alloc, q.copy(alloc)?)?)),
        Pol::Star(q) => Ok(Pol::Star(Box::new(alloc, without_records(alloc, q)?)?)),
        Pol::Dup(_) => Ok(Pol::Seq(Pols::new(Vec::new(alloc)))),
        Pol::Link(a, m, b, n, _) => move_alone(alloc, *a, *m, *b, *n),
    }
}

#[cycle(leave_out)]
#[tactic(auto, using(nk_policy::proofs::Trees::joined_push, nk_policy::proofs::Trees::joined_none))]
fn all_bare(alloc: Global, ps: &[Pol]) -> Result<Vec<Pol>, AllocError>
    ensures { IfOk result (λ qs. trees_of qs.items ≡ all_without_records (trees_of ps.now)) }
{
    let mut out = Vec::new(alloc);
    for q in ps {
        out.push(without_records(alloc, q)?)?;
    }
    Ok(out)
}

/// A link literal that records nothing.
#[tactic(auto, using(nk_policy::proofs::Trees::tree_of_seq))]
fn move_alone(alloc: Global, a: u16, m: u16, b: u16, n: u16) -> Result<Pol, AllocError>
    ensures { IfOk result (λ q. tree_of q ≡ move_of a m b n) }
{
    let parts = vec![in alloc;
        Pol::Test(Fid::SWITCH, u64::from(a)),
        Pol::Test(Fid::PORT, u64::from(m)),
        Pol::Set(Fid::SWITCH, u64::from(b)),
        Pol::Set(Fid::PORT, u64::from(n)),
    ]?;
    Ok(Pol::Seq(Pols::new(parts)))
}
