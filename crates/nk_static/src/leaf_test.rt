//! What is looked for at the leaves of a policy.
ghost use Rattle.std.specs.Prelude.{◌≡◌, ◌==◌};
ghost use Rattle.nk_policy.specs.Tree.{tree_of, trees_of};
ghost use Rattle.nk_policy.specs.Policy.{test, range, assign, dup, link};
ghost use Rattle.nk_policy.specs.Leaves.{has_leaf, some_has_leaf};
ghost use Rattle.nk_static.specs.LeafTests.{test_for};
ghost use Rattle.nk_static.specs.Links.{links_of};

use crate::links::{Links, has_link};
use nk_field::Fid;
use nk_policy::Pol;

/// What is looked for at the leaves of a policy.
#[derive(Clone, Copy)]
pub enum LeafTest {
    /// A test, a range or an assignment of the field.
    OnField(Fid),
    /// A dup outside of a link literal.
    LooseDup,
    /// An assignment of the switch outside of a link literal.
    SwitchAssignment,
    /// A link literal that is none of the links.
    LinkOutside,
    /// Any of these, with this field as the tag.
    AnyOf(Fid),
}

/// Whether some leaf of the policy is what is looked for.
#[cycle(holds_leaf)]
#[tactic(auto, using(nk_policy::proofs::Trees::tree_of_sum, nk_policy::proofs::Trees::tree_of_seq))]
pub fn holds_leaf(p: &Pol, links: &Links, sought: &LeafTest) -> bool
    ensures { result ≡ has_leaf (test_for sought.now (links_of links.now)) (tree_of p.now) }
{
    match p {
        Pol::Test(f, n) => is_sought_test(links, sought, *f, *n),
        Pol::Range(f, lo, hi) => is_sought_range(links, sought, *f, *lo, *hi),
        Pol::Set(f, n) => is_sought_assignment(links, sought, *f, *n),
        Pol::Sum(ps) => some_holds_leaf(ps.as_slice(), links, sought),
        Pol::Seq(ps) => some_holds_leaf(ps.as_slice(), links, sought),
        Pol::Not(q) => holds_leaf(q, links, sought),
        Pol::Star(q) => holds_leaf(q, links, sought),
        Pol::Dup(l) => is_sought_dup(links, sought, *l),
        Pol::Link(a, m, b, n, l) => is_sought_link(links, sought, (*a, *m), (*b, *n), *l),
    }
}

/// Whether one of the policies holds such a leaf.
#[cycle(holds_leaf)]
fn some_holds_leaf(ps: &[Pol], links: &Links, sought: &LeafTest) -> bool
    ensures { result ≡ some_has_leaf (test_for sought.now (links_of links.now)) (trees_of ps.now) }
{
    for q in ps {
        if holds_leaf(q, links, sought) {
            return true;
        }
    }
    false
}

/// Whether a test is looked for.
fn is_sought_test(_links: &Links, sought: &LeafTest, f: Fid, _n: u64) -> bool
    ensures { result ≡ test_for sought.now (links_of _links.now) (test f _n) }
{
    match sought {
        LeafTest::OnField(g) | LeafTest::AnyOf(g) => *g == f,
        _ => false,
    }
}

/// Whether a range is looked for.
fn is_sought_range(_links: &Links, sought: &LeafTest, f: Fid, _lo: u64, _hi: u64) -> bool
    ensures { result ≡ test_for sought.now (links_of _links.now) (range f _lo _hi) }
{
    match sought {
        LeafTest::OnField(g) | LeafTest::AnyOf(g) => *g == f,
        _ => false,
    }
}

/// Whether an assignment is looked for.
fn is_sought_assignment(_links: &Links, sought: &LeafTest, f: Fid, _n: u64) -> bool
    ensures { result ≡ test_for sought.now (links_of _links.now) (assign f _n) }
{
    match sought {
        LeafTest::OnField(g) => *g == f,
        LeafTest::SwitchAssignment => f == Fid::SWITCH,
        LeafTest::AnyOf(g) => f == Fid::SWITCH || *g == f,
        _ => false,
    }
}

/// Whether a dup is looked for.
fn is_sought_dup(_links: &Links, sought: &LeafTest, _l: u32) -> bool
    ensures { result ≡ test_for sought.now (links_of _links.now) (dup _l) }
{
    match sought {
        LeafTest::LooseDup | LeafTest::AnyOf(_) => true,
        _ => false,
    }
}

/// Whether a link literal from one place to another is looked for.
fn is_sought_link(
    links: &Links,
    sought: &LeafTest,
    from: (u16, u16),
    to: (u16, u16),
    _l: u32,
) -> bool
    ensures { result ≡ test_for sought.now (links_of links.now) (link from.0 from.1 to.0 to.1 _l) }
{
    match sought {
        LeafTest::LinkOutside | LeafTest::AnyOf(_) => !has_link(links, from, to),
        _ => false,
    }
}
