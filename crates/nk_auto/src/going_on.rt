//! The cases of what a policy does up to its first record, continued by a diagram.
ghost use Rattle.std.specs.Prelude.{◌≡◌, ℕ, ◌+◌, ◌∷◌, [], true, IfOk};
ghost use Rattle.nk_policy.specs.Policy.{test, range, assign, seq_of, not_of, star_of, link, dup, part, no_part, dups_of, is_predicate as is_predicate_tree};
ghost use Rattle.nk_policy.specs.Tree.{tree_of};
ghost use Rattle.nk_store.specs.StoreState.{IsId, Grows, HasLeaves};
ghost use Rattle.nk_auto.specs.Continued.{IsContinued};

use crate::silence::{
    ended_then, silent, silent_not, silent_predicate, silent_range, silent_set, silent_star,
    silent_test,
};
use nk_algebra::{aim, identity, seq};
use nk_field::Fid;
use nk_policy::{Pol, is_predicate, may_record};
use nk_sets::at_packets;
use nk_store::{Id, Store};
use std::alloc::AllocError;

/// A sum without a dup that has more parts than this, or holds such a sum, is drawn alone.
const MANY: usize = 64;

/// How far below a sum a sum of many parts is looked for: after a test of the switch, say, and one of the port.
const STEPS: u64 = 4;

/// A test, continued by a diagram.
pub fn after_test(st: &mut Store, f: Fid, n: u64, next: Id) -> Result<Id, AllocError>
    requires { IsId st.old next }
    ensures grows { Grows st.old st.new }
    ensures ok { IfOk result (λ d. IsContinued st.new d (test f n) next) }
{
    let d = silent_test(st, f, n)?;
    let r = at_packets(st, d, next)?;
    Ok(r)
}

/// A range, by its ends, continued by a diagram.
pub fn after_range(st: &mut Store, f: Fid, ends: (u64, u64), next: Id) -> Result<Id, AllocError>
    requires { IsId st.old next }
    ensures grows { Grows st.old st.new }
    ensures ok { IfOk result (λ d. IsContinued st.new d (range f ends.0 ends.1) next) }
{
    let d = silent_range(st, f, ends.0, ends.1)?;
    let r = at_packets(st, d, next)?;
    Ok(r)
}

/// An assignment, continued by a diagram.
pub fn after_set(st: &mut Store, f: Fid, n: u64, next: Id) -> Result<Id, AllocError>
    requires { IsId st.old next }
    ensures grows { Grows st.old st.new }
    ensures ok { IfOk result (λ d. IsContinued st.new d (assign f n) next) }
{
    let d = silent_set(st, f, n)?;
    let r = seq(st, d, next)?;
    st.laws();
    Ok(r)
}

/// A complement, continued by a diagram.
pub fn after_not(st: &mut Store, q: &Pol, next: Id) -> Result<Id, AllocError>
    requires { IsId st.old next }
    ensures grows { Grows st.old st.new }
    ensures ok { IfOk result (λ d. IsContinued st.new d (not_of (tree_of q.now)) next) }
{
    let d = silent_not(st, q)?;
    let r = at_packets(st, d, next)?;
    Ok(r)
}

/// Whether a policy is a sum of predicates.
pub fn is_predicate_sum(p: &Pol) -> bool
    ensures { result ≡ true → is_predicate_tree (tree_of p.now) ≡ true }
{
    match p {
        Pol::Sum(_) => is_predicate(p),
        _ => false,
    }
}

/// A predicate, continued by a diagram.
pub fn after_predicate(st: &mut Store, p: &Pol, next: Id) -> Result<Id, AllocError>
    requires next { IsId st.old next }
    requires predicate { is_predicate_tree (tree_of p.now) ≡ true }
    ensures grows { Grows st.old st.new }
    ensures ok { IfOk result (λ d. IsContinued st.new d (tree_of p.now) next) }
{
    let d = silent_predicate(st, p)?;
    let r = at_packets(st, d, next)?;
    Ok(r)
}

/// Whether a policy is a sum without a dup that has many parts or holds a sum of many parts. Part by part each assignment would be
/// put before all of the diagram that comes next; where a test stands before the sum, all but a few of that diagram's parts would
/// then be thrown away. What isn't drawn alone is drawn part by part, so only a yes promises something: no dup.
pub fn is_wide_sum(p: &Pol) -> bool
    ensures { result ≡ true → dups_of (tree_of p.now) ≡ 0 }
{
    match p {
        Pol::Sum(_) => holds_wide_sum(p, STEPS) && !may_record(p),
        _ => false,
    }
}

/// Whether a policy is a sum of many parts, or a sum or a sequence that holds one so many steps below it at most.
#[cycle(holds_wide_sum)]
fn holds_wide_sum(p: &Pol, steps: u64) -> bool {
    match p {
        Pol::Sum(ps) => { ps.as_slice().len() > MANY || some_hold_wide_sum(ps.as_slice(), steps) }
        Pol::Seq(ps) => some_hold_wide_sum(ps.as_slice(), steps),
        _ => false,
    }
}

/// Whether `holds_wide_sum` holds of one of these policies with one step less. Where no step is left, it holds of none.
#[cycle(holds_wide_sum)]
fn some_hold_wide_sum(ps: &[Pol], steps: u64) -> bool {
    if steps == 0 {
        return false;
    }
    for p in ps {
        if holds_wide_sum(p, steps - 1) {
            return true;
        }
    }
    false
}

/// A policy without a dup, drawn alone and put in sequence with a diagram. It isn't drawn in front of nothing.
pub fn after_dupless(st: &mut Store, p: &Pol, next: Id) -> Result<Id, AllocError>
    requires next { IsId st.old next }
    requires dupless { dups_of (tree_of p.now) ≡ 0 }
    ensures grows { Grows st.old st.new }
    ensures ok { IfOk result (λ d. IsContinued st.new d (tree_of p.now) next) }
{
    if st.drops(next) {
        return Ok(next);
    }
    let alone = silent(st, p)?;
    let d = ended_then(st, alone, next)?;
    st.laws();
    Ok(d)
}

/// A dup, continued by a diagram: the dup records first, so the diagram is never reached.
pub fn before_dup(st: &mut Store, l: u32, next: Id) -> Result<Id, AllocError>
    requires { IsId st.old next }
    ensures grows { Grows st.old st.new }
    ensures ok { IfOk result (λ d. IsContinued st.new d (dup l) next) }
{
    let d = recorded(st, u64::from(l))?;
    Ok(d)
}

/// The packet itself, to a target.
fn recorded(st: &mut Store, l: u64) -> Result<Id, AllocError>
    ensures grows { Grows st.old st.new }
    ensures ok { IfOk result
        (λ d. HasLeaves st.new d (λ pk. record { act = []; target = l } ∷ [])) }
{
    let d = identity(st)?;
    aim(st, d, l)
}

/// A star in which no round records: rounds, and then the diagram.
pub fn star_without_dup(st: &mut Store, q: &Pol, next: Id) -> Result<Id, AllocError>
    requires next { IsId st.old next }
    requires dupless { dups_of (tree_of q.now) ≡ 0 }
    ensures grows { Grows st.old st.new }
    ensures ok { IfOk result (λ d. IsContinued st.new d (star_of (tree_of q.now)) next) }
{
    let rounds = silent_star(st, q)?;
    let d = ended_then(st, rounds, next)?;
    st.laws();
    Ok(d)
}

/// A link literal up to its first record: its two tests, and then the record.
pub fn link_start(st: &mut Store, a: u16, m: u16, l: u32) -> Result<Id, AllocError>
    ensures grows { Grows st.old st.new }
    ensures ok { IfOk result
        (λ d. (b n next : ℕ) → IsId st.old next → IsContinued st.new d (link a m b n l) next) }
{
    let at_dup = recorded(st, u64::from(l))?;
    let at_port = after_test(st, Fid::PORT, u64::from(m), at_dup)?;
    let d = after_test(st, Fid::SWITCH, u64::from(a), at_port)?;
    Ok(d)
}

/// What is left of a link literal after its first dup: the two assignments, and then the second record.
pub fn link_rest(st: &mut Store, b: u16, n: u16, l: u32) -> Result<Id, AllocError>
    ensures grows { Grows st.old st.new }
    ensures ok { IfOk result (λ d. (next : ℕ) → IsId st.old next →
        IsContinued st.new d (seq_of
        (part (assign 0 b) (part (assign 1 n) (part (dup (l + 1)) no_part)))) next) }
{
    let at_dup = recorded(st, u64::from(l) + 1)?;
    let at_port = after_set(st, Fid::PORT, u64::from(n), at_dup)?;
    let d = after_set(st, Fid::SWITCH, u64::from(b), at_port)?;
    Ok(d)
}
