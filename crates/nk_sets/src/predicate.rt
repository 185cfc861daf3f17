//! The policy that is printed for a set.
ghost use Rattle.std.specs.Prelude.{◌≡◌, ◌++◌, map, IfOk, OnOk, slice_index};
ghost use Rattle.nk_policy.specs.Policy.{seq_of, part, no_part};
ghost use Rattle.nk_policy.specs.Tree.{tree_of};
ghost use Rattle.nk_policy.specs.After.{id_policy, drop_policy};
ghost use Rattle.nk_store.specs.StoreState.{IsCase, IsId};
ghost use Rattle.nk_store.specs.Nodes.{Each, Rises};
ghost use Rattle.nk_store.specs.Diagram.{case};
ghost use Rattle.nk_sets.specs.PacketSets.{IsSet};
ghost use Rattle.nk_sets.specs.Predicate.{is_empty_set, is_full_set, sum_of_terms, guarded_predicate as guarded_by, within as is_within, terms_of, conditions_of, else_condition, else_terms, predicate_of};
ghost use Rattle.nk_sets.specs.Trees.{branches_of, set_tree};
ghost use Rattle.nk_sets.specs.PolicyOf.{IsPolicyOf, interval_at, intervals_at};

use nk_field::Fid;
use nk_policy::{Pol, Pols};
use nk_store::{Id, Node, Store, else_child};
use std::alloc::{AllocError, Global};

/// The predicate that is printed for a set. The set alone decides it. The only error is that memory ran out.
pub fn set_pol(st: &Store, s: Id) -> Result<Pol, AllocError>
    requires { IsSet st.now s }
    ensures { IfOk result (λ p. IsPolicyOf st.now s (tree_of p)) }
{
    let _laws = st.laws();
    policy(st, s)
}

/// The predicate of a set's tree.
#[cycle(policy)]
fn policy(st: &Store, s: Id) -> Result<Pol, AllocError>
    requires { IsSet st.now s }
    ensures { IfOk result (λ p. tree_of p ≡ predicate_of (set_tree st.now s)) }
{
    match st.view(s) {
        Node::Leaf(outs) => {
            if outs.len() == 0 {
                Ok(nothing(st.alloc()))
            } else {
                Ok(everything(st.alloc()))
            }
        }
        Node::Case(f, parts) => choice_policy(st, s, *f, parts.as_slice()),
    }
}

/// The predicate of no packet.
#[tactic(auto, using(nk_policy::proofs::Trees::tree_of_sum))]
fn nothing(alloc: Global) -> Pol
    ensures { tree_of result ≡ drop_policy }
{
    Pol::Sum(Pols::new(Vec::new(alloc)))
}

/// The predicate of all packets.
#[tactic(auto, using(nk_policy::proofs::Trees::tree_of_seq))]
fn everything(alloc: Global) -> Pol
    ensures { tree_of result ≡ id_policy }
{
    Pol::Seq(Pols::new(Vec::new(alloc)))
}

/// The predicate of a set that tests a field: a term for each interval whose child is neither the else-child nor empty, and
/// then the else-child's.
#[cycle(policy)]
fn choice_policy(st: &Store, s: Id, f: Fid, parts: &[(u64, Id)]) -> Result<Pol, AllocError>
    requires set { IsSet st.now s }
    requires case { IsCase st.now s f parts.now }
    ensures { IfOk result (λ p. tree_of p
        ≡ predicate_of (case f (branches_of parts.now (set_tree st.now)))) }
{
    let _laws = st.laws();
    let high = st.max(f);
    let other = else_child(st.alloc(), high, parts)?;
    let mut terms = Vec::new(st.alloc());
    let mut from: u128 = 0;
    for (end, c) in parts {
        push_part(st, f, other, from as u64, *end, *c, &mut terms)?;
        from = *end as u128 + 1;
    }
    push_else(st, f, parts, other, &mut terms)?;
    Ok(sum(terms))
}

/// Puts the else-child's term at the end, unless that is empty.
#[cycle(policy)]
fn push_else(
    st: &Store,
    f: Fid,
    parts: &[(u64, Id)],
    other: Id,
    terms: &mut Vec<Pol>,
) -> Result<(), AllocError>
    requires rise { Rises (slice_index st.now.maxes f) 0 parts.now }
    requires children { Each (IsSet st.now) parts.now }
    requires other { IsSet st.now other }
    ensures { OnOk result (map tree_of terms.new.items ≡ map tree_of terms.old.items
        ++ else_terms f (interval_at st.now 0 0 other) (intervals_at st.now parts.now 0)) }
{
    if is_none(st, other) {
        return Ok(());
    }
    let condition = else_test(st, f, parts, other)?;
    terms.push(guarded(st, condition, other)?)?;
    Ok(())
}

/// Puts the term of an interval at the end: none where its child is the else-child or empty.
#[cycle(policy)]
fn push_part(
    st: &Store,
    f: Fid,
    other: Id,
    first: u64,
    last: u64,
    c: Id,
    terms: &mut Vec<Pol>,
) -> Result<(), AllocError>
    requires child { IsSet st.now c }
    requires other { IsSet st.now other }
    ensures { OnOk result (map tree_of terms.new.items
        ≡ map tree_of terms.old.items
        ++ terms_of f (set_tree st.now other) (interval_at st.now first last c)) }
{
    let _laws = st.laws();
    if c == other {
        return Ok(());
    }
    if is_none(st, c) {
        return Ok(());
    }
    terms.push(guarded(st, within(f, first, last), c)?)?;
    Ok(())
}

/// The condition that the field's value is from the first to the last.
fn within(f: Fid, first: u64, last: u64) -> Pol
    ensures { tree_of result ≡ is_within f first last }
{
    if first == last {
        Pol::Test(f, first)
    } else {
        Pol::Range(f, first, last)
    }
}

/// A condition, and then a set's predicate unless that is all packets.
#[cycle(policy)]
fn guarded(st: &Store, condition: Pol, c: Id) -> Result<Pol, AllocError>
    requires { IsSet st.now c }
    ensures { IfOk result (λ p. tree_of p
        ≡ guarded_by (tree_of condition) (set_tree st.now c) (predicate_of (set_tree st.now c))) }
{
    if is_all(st, c) {
        return Ok(condition);
    }
    let rest = policy(st, c)?;
    pair(st.alloc(), condition, rest)
}

/// One policy and then another.
#[tactic(auto, using(nk_policy::proofs::Trees::tree_of_seq))]
fn pair(alloc: Global, first: Pol, second: Pol) -> Result<Pol, AllocError>
    ensures { IfOk result (λ p. tree_of p
        ≡ seq_of (part (tree_of first) (part (tree_of second) no_part))) }
{
    let parts = vec![in alloc; first, second]?;
    Ok(Pol::Seq(Pols::new(parts)))
}

/// The condition that the field's value is in no interval whose child is not the else-child.
fn else_test(st: &Store, f: Fid, parts: &[(u64, Id)], other: Id) -> Result<Pol, AllocError>
    requires rise { Rises (slice_index st.now.maxes f) 0 parts.now }
    requires children { Each (IsSet st.now) parts.now }
    requires other { IsSet st.now other }
    ensures { IfOk result (λ p. tree_of p
        ≡ else_condition f (interval_at st.now 0 0 other) (intervals_at st.now parts.now 0)) }
{
    let _most = st.max(f);
    let mut conditions = Vec::new(st.alloc());
    let mut from: u128 = 0;
    for (end, c) in parts {
        push_condition(st, f, other, from as u64, *end, *c, &mut conditions)?;
        from = *end as u128 + 1;
    }
    Ok(Pol::Not(Box::new(st.alloc(), sum(conditions))?))
}

/// Puts the condition of an interval at the end: none where its child is the else-child.
fn push_condition(
    st: &Store,
    f: Fid,
    other: Id,
    first: u64,
    last: u64,
    c: Id,
    conditions: &mut Vec<Pol>,
) -> Result<(), AllocError>
    requires child { IsSet st.now c }
    requires other { IsSet st.now other }
    ensures { OnOk result (map tree_of conditions.new.items
        ≡ map tree_of conditions.old.items
        ++ conditions_of f (set_tree st.now other) (interval_at st.now first last c)) }
{
    let _laws = st.laws();
    if c == other {
        return Ok(());
    }
    conditions.push(within(f, first, last))?;
    Ok(())
}

/// The sum of terms, of which one alone stands for itself.
fn sum(mut terms: Vec<Pol>) -> Pol
    ensures { tree_of result ≡ sum_of_terms (map tree_of terms.items) }
{
    if terms.len() != 1 {
        return Pol::Sum(Pols::new(terms));
    }
    match terms.pop() {
        Some(only) => only,
        None => Pol::Sum(Pols::new(terms)),
    }
}

/// Whether a set is empty.
fn is_none(st: &Store, c: Id) -> bool
    requires { IsId st.now c }
    ensures { result ≡ is_empty_set (set_tree st.now c) }
{
    let _laws = st.laws();
    st.drops(c)
}

/// Whether a set's diagram is a leaf with an out, so that the set has all packets.
fn is_all(st: &Store, c: Id) -> bool
    requires { IsId st.now c }
    ensures { result ≡ is_full_set (set_tree st.now c) }
{
    let _laws = st.laws();
    match st.view(c) {
        Node::Leaf(outs) => outs.len() > 0,
        Node::Case(_, _) => false,
    }
}
