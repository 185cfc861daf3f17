//! Where the links of a policy end.
ghost use Rattle.std.specs.Prelude.{◌≡◌, ℕ, ◌<◌, None, IfOk, length, slice_index_or};
ghost use Rattle.nk_policy.specs.Policy.{link};
ghost use Rattle.nk_policy.specs.Tree.{tree_of, trees_of};
ghost use Rattle.nk_compile.specs.WholeTable.{link_end};
ghost use Rattle.nk_compile.specs.Comings.{HasEnds, HaveEnds};

use nk_field::List;
use nk_policy::Pol;
use std::alloc::{AllocError, Global};

/// For each number below `count` the switch where the link literal with this mark ends, if there is one.
/// The only error is that memory ran out.
pub fn link_ends(alloc: Global, p: &Pol, count: usize) -> Result<List<Option<u16>>, AllocError>
    ensures len { IfOk result (λ ends. length ends ≡ count) }
    ensures each { IfOk result
        (λ ends. (l : ℕ) → l < count → slice_index_or ends l None ≡ link_end (tree_of p.now) l) }
{
    let mut ends = no_ends(alloc, count)?;
    put_ends(&mut ends, p);
    Ok(ends)
}

/// No end for so many numbers.
fn no_ends(alloc: Global, count: usize) -> Result<List<Option<u16>>, AllocError>
    ensures len { IfOk result (λ ends. length ends ≡ count) }
    ensures none { IfOk result (λ ends. (l : ℕ) → slice_index_or ends l None ≡ None) }
{
    let mut ends = List::new(alloc);
    for i in 0..count {
        ends.push(None)?;
    }
    Ok(ends)
}

/// Puts in where the policy's links end.
#[cycle(put_ends)]
#[tactic(auto, using(nk_policy::proofs::Trees::tree_of_sum, nk_policy::proofs::Trees::tree_of_seq))]
fn put_ends(ends: &mut List<Option<u16>>, p: &Pol)
    ensures { HasEnds ends.old ends.new (tree_of p.now) }
{
    match p {
        Pol::Test(_, _) | Pol::Range(_, _, _) | Pol::Set(_, _) | Pol::Dup(_) => (),
        Pol::Sum(ps) => put_all_ends(ends, ps.as_slice()),
        Pol::Seq(ps) => put_all_ends(ends, ps.as_slice()),
        Pol::Not(q) => put_ends(ends, q),
        Pol::Star(q) => put_ends(ends, q),
        Pol::Link(a, m, b, n, l) => put_end(ends, (*a, *m), (*b, *n), *l),
    }
}

/// Puts in where the links of the parts end.
#[cycle(put_ends)]
fn put_all_ends(ends: &mut List<Option<u16>>, ps: &[Pol])
    ensures { HaveEnds ends.old ends.new (trees_of ps.now) }
{
    for q in ps {
        put_ends(ends, q);
    }
}

/// Puts in where a link literal ends.
fn put_end(ends: &mut List<Option<u16>>, _from: (u16, u16), to: (u16, u16), mark: u32)
    ensures { HasEnds ends.old ends.new (link _from.0 _from.1 to.0 to.1 mark) }
{
    let place = mark as usize;
    if place < ends.len() && ends.at(place).is_none() {
        ends.put(place, Some(to.0));
    }
}
