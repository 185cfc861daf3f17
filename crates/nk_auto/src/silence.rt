//! What a policy does without a record.
ghost use Rattle.std.specs.Prelude.{◌≡◌, ℕ, ◌<◌, ◌≤◌, [], true, IfOk, IfSome, OnOk, length, drop};
ghost use Rattle.nk_policy.specs.Policy.{test, range, assign, sum_of, seq_of, not_of, star_of, dup, link, is_predicate};
ghost use Rattle.nk_policy.specs.Tree.{tree_of, trees_of};
ghost use Rattle.nk_store.specs.StoreState.{IsId, look, Grows, HasLeaves};
ghost use Rattle.nk_apply.specs.Predicates.{HasOnlyFinals, IsPredicate};
ghost use Rattle.nk_apply.specs.Seqs.{seq_leaf};
ghost use Rattle.nk_auto.specs.Continued.{IsSilent};
ghost use Rattle.nk_auto.specs.ByValue.{IsArm, AreArms, AreAssignments};

use crate::assignments::{assignment_after, drawn_once};
use crate::by_value::{choice_between, common_field, is_child};
use crate::one_field::{range_where, set_where, test_where};
use crate::values::{tested_value, tests_of_sum, tests_together};
use nk_algebra::{empty, identity, negate, seq, union_all};
use nk_field::{Fid, List};
use nk_policy::Pol;
use nk_star::star;
use nk_store::{Id, Store};
use std::alloc::AllocError;

/// The diagram of a policy's runs without a record, to target 0. The only error is that memory ran out.
#[cycle(silent)]
#[tactic(auto, using(nk_policy::proofs::Trees::tree_of_sum, nk_policy::proofs::Trees::tree_of_seq))]
pub fn silent(st: &mut Store, p: &Pol) -> Result<Id, AllocError>
    ensures grows { Grows st.old st.new }
    ensures ok { IfOk result (λ d. IsSilent st.new d (tree_of p.now)) }
{
    match p {
        Pol::Test(f, n) => silent_test(st, *f, *n),
        Pol::Range(f, lo, hi) => silent_range(st, *f, *lo, *hi),
        Pol::Set(f, n) => silent_set(st, *f, *n),
        Pol::Sum(ps) => silent_any(st, ps.as_slice()),
        Pol::Seq(ps) => silent_all(st, ps.as_slice()),
        Pol::Not(q) => silent_not(st, q),
        Pol::Star(q) => silent_star(st, q),
        Pol::Dup(_) => never_silent(st),
        Pol::Link(_, _, _, _, _) => never_silent(st),
    }
}

/// The diagram of a complement: a predicate.
#[cycle(silent)]
pub fn silent_not(st: &mut Store, q: &Pol) -> Result<Id, AllocError>
    ensures grows { Grows st.old st.new }
    ensures ok { IfOk result (λ d. IsSilent st.new d (not_of (tree_of q.now))) }
    ensures predicate { IfOk result (λ d. IsPredicate st.new d) }
{
    let d = silent(st, q)?;
    negate(st, d)
}

/// The diagram of a predicate, as a predicate diagram.
pub fn silent_predicate(st: &mut Store, p: &Pol) -> Result<Id, AllocError>
    requires { is_predicate (tree_of p.now) ≡ true }
    ensures grows { Grows st.old st.new }
    ensures ok { IfOk result (λ d. IsSilent st.new d (tree_of p.now)) }
    ensures predicate { IfOk result (λ d. IsPredicate st.new d) }
{
    if let Some(together) = tests_of_sum(st, p)? {
        return Ok(together);
    }
    let d = silent(st, p)?;
    let others = negate(st, d)?;
    let r = negate(st, others)?;
    Ok(r)
}

/// The diagram of a star.
#[cycle(silent)]
pub fn silent_star(st: &mut Store, q: &Pol) -> Result<Id, AllocError>
    ensures grows { Grows st.old st.new }
    ensures ok { IfOk result (λ d. IsSilent st.new d (star_of (tree_of q.now))) }
{
    let d = silent(st, q)?;
    let r = star(st, d)?;
    Ok(r)
}

/// The diagram of a dup or of a link literal, which record on each run.
fn never_silent(st: &mut Store) -> Result<Id, AllocError>
    ensures grows { Grows st.old st.new }
    ensures dup { IfOk result (λ d. (l : ℕ) → IsSilent st.new d (dup l)) }
    ensures link { IfOk result (λ d. (a m b n l : ℕ) → IsSilent st.new d (link a m b n l)) }
{
    let d = empty(st)?;
    Ok(d)
}

/// The diagram of a test: a predicate.
pub fn silent_test(st: &mut Store, f: Fid, n: u64) -> Result<Id, AllocError>
    ensures grows { Grows st.old st.new }
    ensures ok { IfOk result (λ d. IsSilent st.new d (test f n)) }
    ensures predicate { IfOk result (λ d. IsPredicate st.new d) }
{
    test_where(st, f, n)
}

/// The diagram of a range: a predicate.
pub fn silent_range(st: &mut Store, f: Fid, lo: u64, hi: u64) -> Result<Id, AllocError>
    ensures grows { Grows st.old st.new }
    ensures ok { IfOk result (λ d. IsSilent st.new d (range f lo hi)) }
    ensures predicate { IfOk result (λ d. IsPredicate st.new d) }
{
    range_where(st, f, lo, hi)
}

/// The diagram of an assignment.
pub fn silent_set(st: &mut Store, f: Fid, n: u64) -> Result<Id, AllocError>
    ensures grows { Grows st.old st.new }
    ensures ok { IfOk result (λ d. IsSilent st.new d (assign f n)) }
{
    set_where(st, f, n)
}

/// Those of a sum's parts together; tests of one field at once.
#[cycle(silent)]
fn silent_any(st: &mut Store, ps: &[Pol]) -> Result<Id, AllocError>
    ensures grows { Grows st.old st.new }
    ensures ok { IfOk result (λ d. IsSilent st.new d (sum_of (trees_of ps.now))) }
{
    if let Some(together) = tests_together(st, ps)? {
        return Ok(together);
    }
    if let Some(choice) = choice_of(st, ps)? {
        return Ok(choice);
    }
    let mut ids = List::new(st.alloc());
    let mut i = ps.len();
    while i > 0 {
        i -= 1;
        let d = silent(st, &ps[i])?;
        ids.push(d)?;
    }
    union_all(st, ids.as_slice())
}

/// The diagram of a sum of many sequences that each begin with a test or a range of one field, no two of which hold of one value: one
/// node over what is after these. None for another sum. To unite n such diagrams by halves takes n log n steps.
#[cycle(silent)]
fn choice_of(st: &mut Store, ps: &[Pol]) -> Result<Option<Id>, AllocError>
    ensures grows { Grows st.old st.new }
    ensures ok { IfOk result (λ o. IfSome o (λ d. IsSilent st.new d (sum_of (trees_of ps.now)))) }
{
    let Some(f) = common_field(st, ps)? else {
        return Ok(None);
    };
    let found = arms_of(st, f, ps)?;
    match found {
        Some(arms) => choice_between(st, f, &arms),
        None => Ok(None),
    }
}

/// The arms of a sum: the intervals that its parts begin with, each with what is after it, in ascending order.
#[cycle(silent)]
fn arms_of(st: &mut Store, f: Fid, ps: &[Pol]) -> Result<Option<List<((u64, u64), Id)>>, AllocError>
    ensures grows { Grows st.old st.new }
    ensures ok { IfOk result
        (λ o. IfSome o (λ arms. AreArms st.new f arms (sum_of (trees_of ps.now)))) }
{
    let mut found = List::with_capacity(st.alloc(), ps.len())?;
    let mut drawn = List::new(st.alloc());
    let mut i = ps.len();
    while i > 0 {
        i -= 1;
        let Some(one) = arm_of(st, f, &ps[i], &mut drawn)? else {
            return Ok(None);
        };
        found.push(one)?;
    }
    let mut arms = found.into_vec();
    arms.sort_unstable();
    Ok(Some(List::from_vec(arms)))
}

/// The interval that a sequence begins with, and the diagram of what is after it. None where it begins otherwise, or where an
/// earlier field is tested after it.
#[cycle(silent)]
#[tactic(auto, using(nk_policy::proofs::Trees::tree_of_seq))]
fn arm_of(
    st: &mut Store,
    f: Fid,
    p: &Pol,
    drawn: &mut List<((Fid, u64), Id)>,
) -> Result<Option<((u64, u64), Id)>, AllocError>
    requires { AreAssignments st.old drawn.old }
    ensures grows { Grows st.old st.new }
    ensures ok { IfOk result (λ o. IfSome o (λ x. IsArm st.new f x (tree_of p.now))) }
    ensures drawn { OnOk result (AreAssignments st.new drawn.new) }
{
    match p {
        Pol::Seq(qs) => arm_of_all(st, f, qs.as_slice(), drawn),
        _ => Ok(None),
    }
}

/// The interval that a sequence of these parts begins with, and the diagram of what is after it. None where the sequence begins
/// otherwise, or where an earlier field is tested after it.
#[cycle(silent)]
fn arm_of_all(
    st: &mut Store,
    f: Fid,
    ps: &[Pol],
    drawn: &mut List<((Fid, u64), Id)>,
) -> Result<Option<((u64, u64), Id)>, AllocError>
    requires { AreAssignments st.old drawn.old }
    ensures grows { Grows st.old st.new }
    ensures ok { IfOk result (λ o. IfSome o (λ x. IsArm st.new f x (seq_of (trees_of ps.now)))) }
    ensures drawn { OnOk result (AreAssignments st.new drawn.new) }
{
    if ps.len() == 0 {
        return Ok(None);
    }
    let Some(ends) = tested_value(&ps[0], f) else {
        return Ok(None);
    };
    let d = what_follows(st, ps, drawn)?;
    if is_child(st, f, d) {
        Ok(Some((ends, d)))
    } else {
        Ok(None)
    }
}

/// The diagram of what is after the first part. An assignment alone is drawn once for all arms.
#[cycle(silent)]
fn what_follows(
    st: &mut Store,
    ps: &[Pol],
    drawn: &mut List<((Fid, u64), Id)>,
) -> Result<Id, AllocError>
    requires some { 1 ≤ length ps.now }
    requires drawn { AreAssignments st.old drawn.old }
    ensures grows { Grows st.old st.new }
    ensures ok { IfOk result (λ d. IsSilent st.new d (seq_of (trees_of (drop 1 ps.now)))) }
    ensures drawn { OnOk result (AreAssignments st.new drawn.new) }
{
    if let Some(set) = assignment_after(ps) {
        return drawn_once(st, set.0, set.1, drawn);
    }
    silent_from(st, ps, 1)
}

/// Those of a sequence's parts, built from the last part to the first; what stands before parts that always record isn't drawn, and
/// none is where links alone stand at some place.
#[cycle(silent)]
fn silent_all(st: &mut Store, ps: &[Pol]) -> Result<Id, AllocError>
    ensures grows { Grows st.old st.new }
    ensures ok { IfOk result (λ d. IsSilent st.new d (seq_of (trees_of ps.now))) }
{
    let nothing = empty(st)?;
    let never = always_records(st, ps, nothing)?;
    if never {
        return Ok(nothing);
    }
    silent_from(st, ps, 0)
}

/// The runs without a record of a sequence's parts from a place on, built from the last part to the first.
#[cycle(silent)]
fn silent_from(st: &mut Store, ps: &[Pol], from: usize) -> Result<Id, AllocError>
    requires { from ≤ length ps.now }
    ensures grows { Grows st.old st.new }
    ensures ok { IfOk result (λ d. IsSilent st.new d (seq_of (trees_of (drop from ps.now)))) }
{
    let nothing = empty(st)?;
    let mut rest = identity(st)?;
    let mut i = ps.len();
    while i > from {
        if rest == nothing {
            return Ok(rest);
        }
        i -= 1;
        let d = silent(st, &ps[i])?;
        rest = ended_then(st, d, rest)?;
        st.laws();
    }
    Ok(rest)
}

/// Whether the sequence always records, because a part is made of dups and link literals. Such a part is drawn alone: it is quick,
/// where what stands after it may be long.
#[cycle(silent)]
fn always_records(st: &mut Store, ps: &[Pol], nothing: Id) -> Result<bool, AllocError>
    requires { HasLeaves st.old nothing (λ pk. []) }
    ensures grows { Grows st.old st.new }
    ensures nothing { OnOk result (HasLeaves st.new nothing (λ pk. [])) }
    ensures ok { IfOk result (λ b. b ≡ true → IsSilent st.new nothing (seq_of (trees_of ps.now))) }
{
    let Some(k) = recording_place(ps) else {
        return Ok(false);
    };
    let d = silent(st, &ps[k])?;
    Ok(d == nothing)
}

/// The place of a part that is made of dups and link literals.
fn recording_place(ps: &[Pol]) -> Option<usize>
    ensures { IfSome result (λ k. k < length ps.now) }
{
    for i in 0..ps.len() {
        if is_recording(&ps[i]) {
            return Some(i);
        }
    }
    None
}

/// Whether a policy is a dup, a link literal, or a sum of these alone.
#[cycle(is_recording)]
fn is_recording(p: &Pol) -> bool {
    match p {
        Pol::Dup(_) | Pol::Link(_, _, _, _, _) => true,
        Pol::Sum(ps) => all_recording(ps.as_slice()),
        _ => false,
    }
}

/// Whether each of these parts is a dup, a link literal, or a sum of these alone.
#[cycle(is_recording)]
fn all_recording(ps: &[Pol]) -> bool {
    for p in ps {
        if !is_recording(p) {
            return false;
        }
    }
    true
}

/// What a diagram that ends does, and then another one: itself, where the other one passes each packet.
pub(crate) fn ended_then(st: &mut Store, d: Id, next: Id) -> Result<Id, AllocError>
    requires id { IsId st.old d }
    requires ends { HasOnlyFinals (look st.old d) }
    requires next { IsId st.old next }
    ensures grows { Grows st.old st.new }
    ensures ok { IfOk result
        (λ r. HasLeaves st.new r (λ pk. seq_leaf (look st.old d pk) (look st.old next) pk)) }
{
    let passing = identity(st)?;
    if next == passing {
        st.laws();
        return Ok(d);
    }
    seq(st, d, next)
}
