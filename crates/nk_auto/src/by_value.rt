//! A choice by the value of one field between diagrams that test later fields, as one node.
ghost use Rattle.std.specs.Prelude.{◌≡◌, ℕ, ◌<◌, [], true, min, slice_index, IfOk, IfSome};
ghost use Rattle.nk_policy.specs.Policy.{Policy};
ghost use Rattle.nk_store.specs.StoreState.{IsId, IsChild, Grows};
ghost use Rattle.nk_apply.specs.Unions.{HaveParts};
ghost use Rattle.nk_auto.specs.Continued.{IsSilent};
ghost use Rattle.nk_auto.specs.Values.{IsConstant};
ghost use Rattle.nk_auto.specs.ByValue.{arm_leaf, AreChildDiagrams, AreArms, HaveOwnValues};

use crate::values::{push_gap, tested_value};
use nk_algebra::empty;
use nk_field::{Fid, List};
use nk_policy::Pol;
use nk_store::{Id, Node, Store};
use std::alloc::{AllocError, Global};

/// A sum of no more parts than this is drawn part by part.
const MANY: usize = 64;

/// The field that many sequences test first, where no value passes two of these tests, and only later fields are tested after them. It
/// tells whether a choice by the field can be made, and no more: what is drawn for a choice that isn't made is drawn in vain, once for
/// each sum around it.
pub(crate) fn common_field(st: &Store, ps: &[Pol]) -> Result<Option<Fid>, AllocError> {
    if ps.len() <= MANY {
        return Ok(None);
    }
    let Some(f) = first_tested(&ps[0]) else {
        return Ok(None);
    };
    if are_apart(st, f, ps)? {
        Ok(Some(f))
    } else {
        Ok(None)
    }
}

/// The field of the test or the range that a sequence begins with.
fn first_tested(p: &Pol) -> Option<Fid> {
    match p {
        Pol::Seq(qs) => match qs.as_slice().first() {
            Some(Pol::Test(f, _)) => Some(*f),
            Some(Pol::Range(f, _, _)) => Some(*f),
            _ => None,
        },
        _ => None,
    }
}

/// Whether all parts begin with a test or a range of the field, each with values of its own, and test later fields alone after it.
fn are_apart(st: &Store, f: Fid, ps: &[Pol]) -> Result<bool, AllocError> {
    let _place = f.place();
    let mut found = Vec::with_capacity(st.alloc(), ps.len())?;
    for p in ps {
        let Some(ends) = first_values(p, f) else {
            return Ok(false);
        };
        if !goes_on_later(p, f) {
            return Ok(false);
        }
        found.push(ends)?;
    }
    found.sort_unstable();
    Ok(is_rising(found.as_slice(), st.max(f)))
}

/// Whether the parts of a sequence after the first test fields after this one alone.
fn goes_on_later(p: &Pol, f: Fid) -> bool {
    match p {
        Pol::Seq(qs) => all_test_later(qs.as_slice(), 1, f),
        _ => false,
    }
}

/// Whether a policy tests fields after this one alone.
#[cycle(tests_later)]
fn tests_later(p: &Pol, f: Fid) -> bool {
    match p {
        Pol::Test(g, _) | Pol::Range(g, _, _) => f < *g,
        Pol::Set(_, _) => true,
        Pol::Sum(ps) | Pol::Seq(ps) => all_test_later(ps.as_slice(), 0, f),
        Pol::Not(q) | Pol::Star(q) => tests_later(q, f),
        Pol::Dup(_) | Pol::Link(_, _, _, _, _) => false,
    }
}

/// Whether all policies from a place on test fields after this one alone.
#[cycle(tests_later)]
fn all_test_later(ps: &[Pol], from: usize, f: Fid) -> bool {
    for i in from..ps.len() {
        if !tests_later(&ps[i], f) {
            return false;
        }
    }
    true
}

/// The ends of the values of the test or the range of the field that a sequence begins with.
fn first_values(p: &Pol, f: Fid) -> Option<(u64, u64)> {
    match p {
        Pol::Seq(qs) => match qs.as_slice().first() {
            Some(q) => tested_value(q, f),
            None => None,
        },
        _ => None,
    }
}

/// Whether each interval ends before the next one begins, and the last one at the largest value at most.
fn is_rising(intervals: &[(u64, u64)], max: u64) -> bool {
    let mut last = 0;
    for i in 0..intervals.len() {
        let (lo, hi) = intervals[i];
        if hi < lo || max < hi {
            return false;
        }
        if i > 0 && lo <= last {
            return false;
        }
        last = hi;
    }
    true
}

/// Whether a diagram tests fields after this one alone.
pub(crate) fn is_child(st: &Store, f: Fid, d: Id) -> bool
    requires { IsId st.now d }
    ensures { result ≡ true → IsChild st.now f d }
{
    let _place = f.place();
    match st.view(d) {
        Node::Leaf(_) => true,
        Node::Case(g, _) => f < *g,
    }
}

/// The diagram of each policy that ends without a record where the field's value is in one of the intervals, as the diagram of
/// that one says. None where the intervals don't ascend, each after the one before, up to the field's largest value at most.
pub(crate) fn choice_between(
    st: &mut Store,
    f: Fid,
    arms: &List<((u64, u64), Id)>,
) -> Result<Option<Id>, AllocError>
    requires { AreChildDiagrams st.old f arms.now }
    ensures grows { Grows st.old st.new }
    ensures ok { IfOk result
        (λ o. IfSome o (λ d. (p : Policy) → AreArms st.old f arms.now p → IsSilent st.new d p)) }
{
    let _place = f.place();
    let outside = empty(st)?;
    match arm_parts(st, f, arms, outside)? {
        Some(parts) => {
            let d = st.case(f, parts)?;
            Ok(Some(d))
        }
        None => Ok(None),
    }
}

/// The parts by the field, with the diagram of each interval there and another one elsewhere, put in one pass.
fn arm_parts(
    st: &Store,
    f: Fid,
    arms: &List<((u64, u64), Id)>,
    outside: Id,
) -> Result<Option<List<(u64, Id)>>, AllocError>
    requires field { f < 18 }
    requires children { AreChildDiagrams st.now f arms.now }
    requires outside { IsConstant st.now outside [] }
    ensures parts { IfOk result (λ o. IfSome o
        (HaveParts st.now f (λ v pk.
        arm_leaf st.now arms.now (min v (slice_index st.now.maxes f)) pk))) }
    ensures alone { IfOk result (λ o. IfSome o (λ parts. HaveOwnValues st.now arms.now)) }
{
    let max = st.max(f);
    let most = arms.len().saturating_mul(2).saturating_add(1);
    let mut parts = List::with_capacity(st.alloc(), most)?;
    let mut from = 0;
    for i in 0..arms.len() {
        let ((lo, hi), d) = *arms.at(i);
        if lo < from {
            return Ok(None);
        }
        if hi < lo {
            return Ok(None);
        }
        if hi > max {
            return Ok(None);
        }
        push_gap(&mut parts, from, lo, outside)?;
        parts.push((hi, d))?;
        if hi == max {
            if i + 1 < arms.len() {
                return Ok(None);
            }
            return Ok(Some(parts));
        }
        from = hi + 1;
    }
    parts.push((max, outside))?;
    Ok(Some(parts))
}
