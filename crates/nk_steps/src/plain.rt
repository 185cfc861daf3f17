//! Whether it can be told by the acts alone what the packets of a diagram are sent to.
ghost use Rattle.std.specs.Prelude.{◌≡◌, ◌==◌, ℕ, ◌<◌, ◌||◌, true, List as Items, IfOk, OnOk};
ghost use Rattle.std.specs.List.{Contains, list_all};
ghost use Rattle.nk_store.specs.declared.node.Out.{Out};
ghost use Rattle.nk_store.specs.StoreState.{IsId, look};
ghost use Rattle.nk_steps.specs.Plain.{fields_in, IsPlain};
ghost use Rattle.nk_steps.specs.AllPlain.{HasPlainLeaves, AllHavePlainLeaves};

use nk_field::Fid;
use nk_store::{Id, Node, Out, Store};
use std::alloc::AllocError;
use std::collections::HashSet;

/// Whether each leaf of a diagram is plain, so that what packets are sent to can be told by the acts alone: the outs that
/// are no finals (target 0) have one label, or their acts assign the same fields. A node with parts or with two outs and
/// more is visited once. The only error is that memory ran out.
pub(crate) fn is_plain(st: &Store, d: Id) -> Result<bool, AllocError>
    requires { IsId st.now d }
    ensures { IfOk result (λ b. b ≡ true → (pk : Items ℕ) → IsPlain (look st.now d pk)) }
{
    let mut seen = HashSet::new(st.alloc());
    let plain = plain_new(st, &mut seen, d)?;
    Ok(plain)
}

/// Whether the leaves of a diagram are plain, unless that was found before.
#[cycle(plain)]
fn plain_part(st: &Store, seen: &mut HashSet<Id>, d: Id) -> Result<bool, AllocError>
    requires id { IsId st.now d }
    requires seen { AllHavePlainLeaves st.now seen.old.keys }
    ensures ok { IfOk result (λ b. b ≡ true → HasPlainLeaves st.now d) }
    ensures seen { OnOk result (AllHavePlainLeaves st.now seen.new.keys) }
{
    match st.view(d) {
        Node::Leaf(outs) => {
            if outs.len() < 2 {
                Ok(true)
            } else {
                plain_once(st, seen, d)
            }
        }
        Node::Case(_, _) => plain_once(st, seen, d),
    }
}

/// Whether the leaves of a diagram are plain, unless that was found before; that they are is kept.
#[cycle(plain)]
fn plain_once(st: &Store, seen: &mut HashSet<Id>, d: Id) -> Result<bool, AllocError>
    requires id { IsId st.now d }
    requires seen { AllHavePlainLeaves st.now seen.old.keys }
    ensures ok { IfOk result (λ b. b ≡ true → HasPlainLeaves st.now d) }
    ensures seen { OnOk result (AllHavePlainLeaves st.now seen.new.keys) }
{
    if seen.contains(&d) {
        return Ok(true);
    }
    if !plain_new(st, seen, d)? {
        return Ok(false);
    }
    seen.insert(d)?;
    Ok(true)
}

/// Whether the leaves of a diagram are plain.
#[cycle(plain)]
fn plain_new(st: &Store, seen: &mut HashSet<Id>, d: Id) -> Result<bool, AllocError>
    requires id { IsId st.now d }
    requires seen { AllHavePlainLeaves st.now seen.old.keys }
    ensures ok { IfOk result (λ b. b ≡ true → HasPlainLeaves st.now d) }
    ensures seen { OnOk result (AllHavePlainLeaves st.now seen.new.keys) }
{
    match st.view(d) {
        Node::Leaf(outs) => Ok(leaf_is_plain(outs.as_slice())),
        Node::Case(_, parts) => {
            for part in parts.as_slice() {
                if !plain_part(st, seen, part.1)? {
                    return Ok(false);
                }
            }
            Ok(true)
        }
    }
}

/// Whether a leaf is plain.
fn leaf_is_plain(outs: &[Out]) -> bool
    ensures { result ≡ true → IsPlain outs.now }
{
    for o in outs {
        if o.target != 0 {
            return have_label(outs, o.target) || assign_all(outs, o.act.as_slice());
        }
    }
    true
}

/// Whether each out is a final or has that label.
pub(crate) fn have_label(outs: &[Out], label: u64) -> bool
    ensures { result ≡ list_all (λ o. (o.target == 0) || (o.target == label)) outs.now }
{
    outs.iter().all(|o| o.target == 0 || o.target == label)
}

/// Whether each out is a final or assigns the same fields as that act.
fn assign_all(outs: &[Out], act: &[(Fid, u64)]) -> bool
    ensures { result ≡ true → (p : Out) → Contains outs.now p → 0 < p.target
        → fields_in act.now ≡ fields_in p.act }
{
    for o in outs {
        if o.target != 0 && !assigns_same(act, o.act.as_slice()) {
            return false;
        }
    }
    true
}

/// Whether two acts assign the same fields.
pub(crate) fn assigns_same(a: &[(Fid, u64)], b: &[(Fid, u64)]) -> bool
    ensures { result ≡ true → fields_in a.now ≡ fields_in b.now }
{
    if a.len() != b.len() {
        return false;
    }
    let mut i = 0;
    while i < a.len() {
        if a[i].0 != b[i].0 {
            return false;
        }
        i += 1;
    }
    true
}
