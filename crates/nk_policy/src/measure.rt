//! What is read off a policy's tree.
ghost use Rattle.std.specs.Prelude.{◌≡◌, ◌<◌, true, false, min};
ghost use Rattle.nk_policy.specs.Policy.{size_of, sizes_of, depth_of, depths_of, dups_of, dups_of_all, is_predicate as is_predicate_tree, are_predicates};
ghost use Rattle.nk_policy.specs.Tree.{tree_of, trees_of};

use crate::policy::Pol;

const LAST: u64 = u64::MAX;

/// How many elements the tree has; the largest u64 where there are more.
#[cycle(size)]
#[tactic(auto, using(crate::proofs::Trees::tree_of_sum, crate::proofs::Trees::tree_of_seq))]
pub fn size(p: &Pol) -> u64
    ensures { result ≡ min (size_of (tree_of p.now)) LAST }
{
    match p {
        Pol::Link(_, _, _, _, _) | Pol::Test(_, _) | Pol::Set(_, _) | Pol::Dup(_) => 1,
        Pol::Range(_, _, _) => 1,
        Pol::Sum(ps) | Pol::Seq(ps) => sizes(ps.as_slice()).saturating_add(1),
        Pol::Not(q) | Pol::Star(q) => size(q).saturating_add(1),
    }
}

/// How many elements the parts have. Here, in `dups_all` and in `some_may_record` a test, a range and an assignment are told without
/// a call. Most parts are such ones: this saves a hundredth or two of a comparison of policies of 70,000 elements.
#[cycle(size)]
fn sizes(ps: &[Pol]) -> u64
    ensures { result ≡ min (sizes_of (trees_of ps.now)) LAST }
{
    let mut total: u64 = 0;
    for q in ps {
        total = match q {
            Pol::Test(_, _) | Pol::Range(_, _, _) | Pol::Set(_, _) => total.saturating_add(1),
            _ => total.saturating_add(size(q)),
        };
    }
    total
}

/// The depth of the tree, 1 for a leaf; the largest u64 where it is deeper.
#[cycle(depth)]
#[tactic(auto, using(crate::proofs::Trees::tree_of_sum, crate::proofs::Trees::tree_of_seq))]
pub fn depth(p: &Pol) -> u64
    ensures { result ≡ min (depth_of (tree_of p.now)) LAST }
{
    match p {
        Pol::Test(_, _) | Pol::Set(_, _) | Pol::Dup(_) => 1,
        Pol::Link(_, _, _, _, _) | Pol::Range(_, _, _) => 1,
        Pol::Sum(ps) | Pol::Seq(ps) => deepest(ps.as_slice()).saturating_add(1),
        Pol::Not(q) | Pol::Star(q) => depth(q).saturating_add(1),
    }
}

#[cycle(depth)]
fn deepest(ps: &[Pol]) -> u64
    ensures { result ≡ min (depths_of (trees_of ps.now)) LAST }
{
    let mut most: u64 = 0;
    for q in ps {
        let d = depth(q);
        if most < d {
            most = d;
        }
    }
    most
}

/// How many dups it has, a link counting as two; the largest u64 where there are more.
#[cycle(dups)]
#[tactic(auto, using(crate::proofs::Trees::tree_of_sum, crate::proofs::Trees::tree_of_seq))]
pub fn dups(p: &Pol) -> u64
    ensures { result ≡ min (dups_of (tree_of p.now)) LAST }
{
    match p {
        Pol::Test(_, _) | Pol::Range(_, _, _) | Pol::Set(_, _) => 0,
        Pol::Dup(_) => 1,
        Pol::Link(_, _, _, _, _) => 2,
        Pol::Sum(ps) | Pol::Seq(ps) => dups_all(ps.as_slice()),
        Pol::Not(q) | Pol::Star(q) => dups(q),
    }
}

/// How many dups the parts have.
#[cycle(dups)]
fn dups_all(ps: &[Pol]) -> u64
    ensures { result ≡ min (dups_of_all (trees_of ps.now)) LAST }
{
    let mut total: u64 = 0;
    for q in ps {
        match q {
            Pol::Test(_, _) | Pol::Range(_, _, _) | Pol::Set(_, _) => {}
            _ => total = total.saturating_add(dups(q)),
        }
    }
    total
}

/// Whether it has a dup. Parts are asked from the last on, as links stand after what is done at a switch.
#[cycle(may_record)]
#[tactic(auto, using(crate::proofs::Trees::tree_of_sum, crate::proofs::Trees::tree_of_seq))]
pub fn may_record(p: &Pol) -> bool
    ensures some { result ≡ true → 0 < dups_of (tree_of p.now) }
    ensures none { result ≡ false → dups_of (tree_of p.now) ≡ 0 }
{
    match p {
        Pol::Test(_, _) | Pol::Range(_, _, _) | Pol::Set(_, _) => false,
        Pol::Dup(_) | Pol::Link(_, _, _, _, _) => true,
        Pol::Sum(ps) | Pol::Seq(ps) => some_may_record(ps.as_slice()),
        Pol::Not(q) | Pol::Star(q) => may_record(q),
    }
}

/// Whether a part has a dup.
#[cycle(may_record)]
fn some_may_record(ps: &[Pol]) -> bool
    ensures some { result ≡ true → 0 < dups_of_all (trees_of ps.now) }
    ensures none { result ≡ false → dups_of_all (trees_of ps.now) ≡ 0 }
{
    let mut i = ps.len();
    while i > 0 {
        i -= 1;
        let q = &ps[i];
        match q {
            Pol::Test(_, _) | Pol::Range(_, _, _) | Pol::Set(_, _) => {}
            _ => {
                if may_record(q) {
                    return true;
                }
            }
        }
    }
    false
}

/// Whether it is a predicate: made of tests, ranges, sums, sequences and complements of predicates
/// alone.
#[cycle(is_predicate)]
#[tactic(auto, using(crate::proofs::Trees::tree_of_sum, crate::proofs::Trees::tree_of_seq))]
pub fn is_predicate(p: &Pol) -> bool
    ensures { result ≡ is_predicate_tree (tree_of p.now) }
{
    match p {
        Pol::Test(_, _) | Pol::Range(_, _, _) => true,
        Pol::Set(_, _) | Pol::Dup(_) | Pol::Link(_, _, _, _, _) => false,
        Pol::Star(_) => false,
        Pol::Sum(ps) | Pol::Seq(ps) => all_predicates(ps.as_slice()),
        Pol::Not(q) => is_predicate(q),
    }
}

#[cycle(is_predicate)]
fn all_predicates(ps: &[Pol]) -> bool
    ensures { result ≡ are_predicates (trees_of ps.now) }
{
    for q in ps {
        if !is_predicate(q) {
            return false;
        }
    }
    true
}
