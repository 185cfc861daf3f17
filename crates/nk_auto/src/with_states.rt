//! What a policy does up to its first record, continued by a diagram, and the states of its dups: what is left after each of
//! them, continued by the same diagram.
ghost use Rattle.std.specs.Prelude.{ℕ, ◌+◌, ◌-◌, ◌<◌, [], List as Items, IfOk, OnOk};
ghost use Rattle.nk_policy.specs.Policy.{Policies, sum_of, seq_of, star_of, dup, link, part};
ghost use Rattle.nk_policy.specs.Tree.{tree_of, trees_of};
ghost use Rattle.nk_store.specs.StoreState.{IsId, Grows, HasLeaves};
ghost use Rattle.nk_auto.specs.Continued.{IsContinued, AreWritten, IsPut};
ghost use Rattle.nk_auto.specs.Guarded.{IsGuarded};
ghost use Rattle.nk_auto.specs.TwoWays.{AreWays};

use crate::going_on::{
    after_dupless, after_not, after_predicate, after_range, after_set, after_test, before_dup,
    is_predicate_sum, is_wide_sum, link_rest, link_start, star_without_dup,
};
use crate::guards::{GuardedRest, guard_of, guarded_by, put_together, unguarded};
use crate::nested::{BothWays, around, holds_star, nests, put_before};
use crate::silence::{silent, silent_star};
use nk_algebra::{empty, identity, seq, union, union_all};
use nk_field::List;
use nk_policy::{Pol, may_record};
use nk_store::{Id, Store};
use std::alloc::AllocError;

/// The diagram of a policy up to its first record, continued by a diagram: where the policy ends without a record the
/// diagram says what comes next, and where it records at its dup l the packet is sent to target l. The only error is
/// that memory ran out. A sum of predicates is one predicate, which guards the diagram once.
#[cycle(with_states)]
pub fn continued(st: &mut Store, p: &Pol, next: Id) -> Result<Id, AllocError>
    requires { IsId st.old next }
    ensures grows { Grows st.old st.new }
    ensures ok { IfOk result (λ d. IsContinued st.new d (tree_of p.now) next) }
{
    let mut none = List::new(st.alloc());
    continued_with_states(st, p, next, 0, &mut none)
}

/// The diagram of a policy up to its first record, continued by a diagram, as `continued` gives it. The same pass from the
/// right writes the state of each dup of the policy that has a place: the state of dup l stands at the place l - base, and
/// becomes the diagram of what is left of the policy after l, continued by the diagram that comes next. Dups that have the same
/// left after them have one diagram. The only error is that memory ran out.
#[cycle(with_states)]
#[tactic(auto, using(nk_policy::proofs::Trees::tree_of_sum, nk_policy::proofs::Trees::tree_of_seq, crate::proofs::Writing::test_written, crate::proofs::Writing::range_written, crate::proofs::Writing::set_written, crate::proofs::Writing::not_written))]
pub fn continued_with_states(
    st: &mut Store,
    p: &Pol,
    next: Id,
    base: u32,
    states: &mut List<Id>,
) -> Result<Id, AllocError>
    requires { IsId st.old next }
    ensures grows { Grows st.old st.new }
    ensures ok { IfOk result (λ d. IsContinued st.new d (tree_of p.now) next) }
    ensures written { OnOk result
        (AreWritten st.new states.old states.new base (tree_of p.now) next) }
{
    if is_predicate_sum(p) {
        return after_predicate(st, p, next);
    }
    if is_wide_sum(p) {
        return after_dupless(st, p, next);
    }
    match p {
        Pol::Test(f, n) => after_test(st, *f, *n, next),
        Pol::Range(f, lo, hi) => after_range(st, *f, (*lo, *hi), next),
        Pol::Set(f, n) => after_set(st, *f, *n, next),
        Pol::Sum(ps) => any_with_states(st, ps.as_slice(), next, base, states),
        Pol::Seq(ps) => all_with_states(st, ps.as_slice(), next, base, states),
        Pol::Not(q) => after_not(st, q, next),
        Pol::Star(q) => star_with_states(st, q, next, base, states),
        Pol::Dup(l) => dup_with_state(st, *l, next, base, states),
        Pol::Link(a, m, b, n, l) => link_with_states(
            st,
            (*a, *m),
            (*b, *n),
            *l,
            next,
            base,
            states,
        ),
    }
}

/// A star: its body goes on as the star does.
#[cycle(with_states)]
fn star_with_states(
    st: &mut Store,
    q: &Pol,
    next: Id,
    base: u32,
    states: &mut List<Id>,
) -> Result<Id, AllocError>
    requires { IsId st.old next }
    ensures grows { Grows st.old st.new }
    ensures ok { IfOk result (λ d. IsContinued st.new d (star_of (tree_of q.now)) next) }
    ensures written { OnOk result
        (AreWritten st.new states.old states.new base (star_of (tree_of q.now)) next) }
{
    let again = continued_star(st, q, next)?;
    write_states(st, q, again, base, states)?;
    Ok(again)
}

/// A star: rounds without a record, then the diagram or a round that records.
#[cycle(with_states)]
fn continued_star(st: &mut Store, q: &Pol, next: Id) -> Result<Id, AllocError>
    requires { IsId st.old next }
    ensures grows { Grows st.old st.new }
    ensures ok { IfOk result (λ d. IsContinued st.new d (star_of (tree_of q.now)) next) }
{
    if !may_record(q) {
        return star_without_dup(st, q, next);
    }
    let nothing = empty(st)?;
    if nests(q) {
        let body = both_ways(st, q, nothing)?;
        let ways = around(st, body, next)?;
        return Ok(ways.records);
    }
    let records = continued(st, q, nothing)?;
    let rounds = silent_star(st, q)?;
    let onward = union(st, next, records)?;
    let d = seq(st, rounds, onward)?;
    st.laws();
    Ok(d)
}

/// Both what a policy does without a record and what it records first, in one pass, so that no star is drawn anew inside
/// each of those around it. A part that holds no star is drawn each way by itself.
#[cycle(with_states)]
#[tactic(auto, using(nk_policy::proofs::Trees::tree_of_sum, nk_policy::proofs::Trees::tree_of_seq))]
fn both_ways(st: &mut Store, p: &Pol, nothing: Id) -> Result<BothWays, AllocError>
    requires { HasLeaves st.old nothing (λ pk. []) }
    ensures grows { Grows st.old st.new }
    ensures ok { IfOk result (λ b. AreWays st.new b.silent b.records nothing (tree_of p.now)) }
{
    if !holds_star(p) {
        return each_way(st, p, nothing);
    }
    match p {
        Pol::Sum(ps) => both_any(st, ps.as_slice(), nothing),
        Pol::Seq(ps) => both_all(st, ps.as_slice(), nothing),
        Pol::Star(q) => {
            let body = both_ways(st, q, nothing)?;
            let ways = around(st, body, nothing)?;
            Ok(ways)
        }
        _ => each_way(st, p, nothing),
    }
}

/// The two ways of a policy, one after the other. One without a dup records nothing.
#[cycle(with_states)]
fn each_way(st: &mut Store, p: &Pol, nothing: Id) -> Result<BothWays, AllocError>
    requires { HasLeaves st.old nothing (λ pk. []) }
    ensures grows { Grows st.old st.new }
    ensures ok { IfOk result (λ b. AreWays st.new b.silent b.records nothing (tree_of p.now)) }
{
    let alone = silent(st, p)?;
    if !may_record(p) {
        return Ok(BothWays {
            silent: alone,
            records: nothing,
        });
    }
    let records = continued(st, p, nothing)?;
    Ok(BothWays {
        silent: alone,
        records,
    })
}

/// Both ways of a sum: those of its parts together.
#[cycle(with_states)]
fn both_any(st: &mut Store, ps: &[Pol], nothing: Id) -> Result<BothWays, AllocError>
    requires { HasLeaves st.old nothing (λ pk. []) }
    ensures grows { Grows st.old st.new }
    ensures ok { IfOk result
        (λ b. AreWays st.new b.silent b.records nothing (sum_of (trees_of ps.now))) }
{
    let mut silents = List::new(st.alloc());
    let mut records = List::new(st.alloc());
    let mut i = ps.len();
    while i > 0 {
        i -= 1;
        let ways = both_ways(st, &ps[i], nothing)?;
        silents.push(ways.silent)?;
        records.push(ways.records)?;
    }
    let alone = union_all(st, silents.as_slice())?;
    let first = union_all(st, records.as_slice())?;
    Ok(BothWays {
        silent: alone,
        records: first,
    })
}

/// Both ways of a sequence, from the last part to the first.
#[cycle(with_states)]
fn both_all(st: &mut Store, ps: &[Pol], nothing: Id) -> Result<BothWays, AllocError>
    requires { HasLeaves st.old nothing (λ pk. []) }
    ensures grows { Grows st.old st.new }
    ensures ok { IfOk result
        (λ b. AreWays st.new b.silent b.records nothing (seq_of (trees_of ps.now))) }
{
    let passing = identity(st)?;
    let mut following = BothWays {
        silent: passing,
        records: nothing,
    };
    let mut i = ps.len();
    while i > 0 {
        i -= 1;
        let first = both_ways(st, &ps[i], nothing)?;
        let more = put_before(st, first, following)?;
        following = more;
    }
    Ok(following)
}

/// Writes the states of a policy's dups, as `continued_with_states` writes them, and gives no diagram of the policy. Each dup that has a
/// place gets its state, where each complement of the policy is of a predicate (`states` of `AreWritten`); the states at all other
/// places stay (`others`), and the list stays as long as it was (`count`). The store only grows. What no clause says: if the list of
/// states is empty, no diagram is made; if the first part of a sequence has no dup, none is made of it.
#[cycle(with_states)]
#[tactic(auto, using(nk_policy::proofs::Trees::tree_of_sum, nk_policy::proofs::Trees::tree_of_seq, crate::proofs::Writing::test_written, crate::proofs::Writing::range_written, crate::proofs::Writing::set_written, crate::proofs::Writing::not_written))]
fn write_states(
    st: &mut Store,
    p: &Pol,
    next: Id,
    base: u32,
    states: &mut List<Id>,
) -> Result<(), AllocError>
    requires { IsId st.old next }
    ensures grows { Grows st.old st.new }
    ensures written { OnOk result
        (AreWritten st.new states.old states.new base (tree_of p.now) next) }
{
    if states.len() == 0 {
        return Ok(());
    }
    if !may_record(p) {
        return Ok(());
    }
    match p {
        Pol::Test(_, _) => Ok(()),
        Pol::Range(_, _, _) => Ok(()),
        Pol::Set(_, _) => Ok(()),
        Pol::Sum(ps) => write_any(st, ps.as_slice(), next, base, states),
        Pol::Seq(ps) => write_all(st, ps.as_slice(), next, base, states),
        Pol::Not(_) => Ok(()),
        Pol::Star(q) => {
            star_with_states(st, q, next, base, states)?;
            Ok(())
        }
        Pol::Dup(l) => {
            dup_with_state(st, *l, next, base, states)?;
            Ok(())
        }
        Pol::Link(a, m, b, n, l) => {
            link_with_states(st, (*a, *m), (*b, *n), *l, next, base, states)?;
            Ok(())
        }
    }
}

/// Writes the states of a sum's dups, and gives no diagram of the sum.
#[cycle(with_states)]
fn write_any(
    st: &mut Store,
    ps: &[Pol],
    next: Id,
    base: u32,
    states: &mut List<Id>,
) -> Result<(), AllocError>
    requires { IsId st.old next }
    ensures grows { Grows st.old st.new }
    ensures written { OnOk result
        (AreWritten st.new states.old states.new base (sum_of (trees_of ps.now)) next) }
{
    let mut i = ps.len();
    while i > 0 {
        i -= 1;
        write_states(st, &ps[i], next, base, states)?;
    }
    Ok(())
}

/// Writes the states of a sequence's dups, and gives no diagram of the sequence.
#[cycle(with_states)]
fn write_all(
    st: &mut Store,
    ps: &[Pol],
    next: Id,
    base: u32,
    states: &mut List<Id>,
) -> Result<(), AllocError>
    requires { IsId st.old next }
    ensures grows { Grows st.old st.new }
    ensures written { OnOk result
        (AreWritten st.new states.old states.new base (seq_of (trees_of ps.now)) next) }
{
    let mut later = unguarded(st, next)?;
    let mut i = ps.len();
    while i > 1 {
        i -= 1;
        later = part_with_states(st, &ps[i], later, base, states)?;
    }
    if i == 1 {
        return write_first(st, &ps[0], later, base, states);
    }
    Ok(())
}

/// Writes the states of the dups of a sequence's first part; those of the parts after it are written already. Where the first part has
/// no dup, what is after it isn't put together.
#[cycle(with_states)]
fn write_first(
    st: &mut Store,
    p: &Pol,
    following: GuardedRest,
    base: u32,
    states: &mut List<Id>,
) -> Result<(), AllocError>
    requires guard { IsId st.old following.guard }
    requires rest { IsId st.old following.rest }
    ensures grows { Grows st.old st.new }
    ensures written { OnOk result ((before : Items ℕ) (ps : Policies) (k : ℕ) →
        IsGuarded st.old following.guard following.rest (seq_of ps) k
        → AreWritten st.old before states.old base (seq_of ps) k →
        AreWritten st.new before states.new base (seq_of (part (tree_of p.now) ps)) k) }
{
    if !may_record(p) {
        return Ok(());
    }
    let next = put_together(st, following)?;
    write_states(st, p, next, base, states)
}

/// A dup: after it the diagram is left.
fn dup_with_state(
    st: &mut Store,
    l: u32,
    next: Id,
    base: u32,
    states: &mut List<Id>,
) -> Result<Id, AllocError>
    requires { IsId st.old next }
    ensures grows { Grows st.old st.new }
    ensures ok { IfOk result (λ d. IsContinued st.new d (dup l) next) }
    ensures written { OnOk result (AreWritten st.new states.old states.new base (dup l) next) }
{
    let d = before_dup(st, l, next)?;
    write_state(states, base, u64::from(l), next);
    Ok(d)
}

/// A link literal: after its first dup its assignments and its second dup are left, and after that one the diagram.
fn link_with_states(
    st: &mut Store,
    source: (u16, u16),
    target: (u16, u16),
    l: u32,
    next: Id,
    base: u32,
    states: &mut List<Id>,
) -> Result<Id, AllocError>
    requires { IsId st.old next }
    ensures grows { Grows st.old st.new }
    ensures ok { IfOk result
        (λ d. IsContinued st.new d (link source.0 source.1 target.0 target.1 l) next) }
    ensures written { OnOk result
        (AreWritten st.new states.old states.new base
        (link source.0 source.1 target.0 target.1 l) next) }
{
    let d = link_start(st, source.0, source.1, l)?;
    if states.len() == 0 {
        return Ok(d);
    }
    let moved = link_rest(st, target.0, target.1, l)?;
    write_state(states, base, u64::from(l) + 1, next);
    write_state(states, base, u64::from(l), moved);
    Ok(d)
}

/// Writes the state of a dup, if it has a place.
#[tactic(auto, using(crate::proofs::Writing::set_past))]
fn write_state(states: &mut List<Id>, base: u32, l: u64, d: Id)
    ensures { IsPut states.old states.new base l d }
{
    let from = u64::from(base);
    if l < from {
        return;
    }
    let place = (l - from) as usize;
    if place >= states.len() {
        return;
    }
    states.put(place, d);
}

/// The parts of a sum, each continued by the diagram.
#[cycle(with_states)]
fn any_with_states(
    st: &mut Store,
    ps: &[Pol],
    next: Id,
    base: u32,
    states: &mut List<Id>,
) -> Result<Id, AllocError>
    requires { IsId st.old next }
    ensures grows { Grows st.old st.new }
    ensures ok { IfOk result (λ d. IsContinued st.new d (sum_of (trees_of ps.now)) next) }
    ensures written { OnOk result
        (AreWritten st.new states.old states.new base (sum_of (trees_of ps.now)) next) }
{
    let mut ids = List::new(st.alloc());
    let mut i = ps.len();
    while i > 0 {
        i -= 1;
        let d = continued_with_states(st, &ps[i], next, base, states)?;
        ids.push(d)?;
    }
    union_all(st, ids.as_slice())
}

/// The parts of a sequence, each continued by the parts after it. Predicates side by side are one guard.
#[cycle(with_states)]
fn all_with_states(
    st: &mut Store,
    ps: &[Pol],
    next: Id,
    base: u32,
    states: &mut List<Id>,
) -> Result<Id, AllocError>
    requires { IsId st.old next }
    ensures grows { Grows st.old st.new }
    ensures ok { IfOk result (λ d. IsContinued st.new d (seq_of (trees_of ps.now)) next) }
    ensures written { OnOk result
        (AreWritten st.new states.old states.new base (seq_of (trees_of ps.now)) next) }
{
    let mut following = unguarded(st, next)?;
    let mut i = ps.len();
    while i > 0 {
        i -= 1;
        following = part_with_states(st, &ps[i], following, base, states)?;
    }
    put_together(st, following)
}

/// One more part before what a sequence does from a place on, and the states of its dups.
#[cycle(with_states)]
fn part_with_states(
    st: &mut Store,
    p: &Pol,
    following: GuardedRest,
    base: u32,
    states: &mut List<Id>,
) -> Result<GuardedRest, AllocError>
    requires guard { IsId st.old following.guard }
    requires rest { IsId st.old following.rest }
    ensures grows { Grows st.old st.new }
    ensures ok { IfOk result
        (λ b. (ps : Policies) (k : ℕ)
        → IsGuarded st.old following.guard following.rest (seq_of ps) k →
        IsGuarded st.new b.guard b.rest (seq_of (part (tree_of p.now) ps)) k) }
    ensures written { OnOk result ((before : Items ℕ) (ps : Policies) (k : ℕ) →
        IsGuarded st.old following.guard following.rest (seq_of ps) k
        → AreWritten st.old before states.old base (seq_of ps) k →
        AreWritten st.new before states.new base (seq_of (part (tree_of p.now) ps)) k) }
{
    if let Some(d) = guard_of(st, p)? {
        return guarded_by(st, d, following);
    }
    let next = put_together(st, following)?;
    let rest = continued_with_states(st, p, next, base, states)?;
    unguarded(st, rest)
}
