//! Sets with a field forgotten.
ghost use Rattle.std.specs.Prelude.{◌≡◌, ◌<◌, true, map, IfOk, IfSome, OnOk, MatchOption};
ghost use Rattle.nk_store.specs.StoreState.{IsId, IsStill, IsCase, Grows, root_field};
ghost use Rattle.nk_sets.specs.PacketSets.{IsSet};
ghost use Rattle.nk_sets.specs.Forgets.{AreChildren, IsForgotten, AreForgotten};

use nk_apply::{Memo, known, union_all};
use nk_field::{Fid, List};
use nk_store::{Id, Node, Store};
use std::alloc::{AllocError, Global};

/// Up to how many parts a set's children are put together without keeping what they are.
const FEW: usize = 4;

/// The packets that are in the set for some value of the field. Each node of the set is visited once.
pub(crate) fn forget(st: &mut Store, s: Id, f: Fid) -> Result<Id, AllocError>
    requires { IsSet st.old s }
    ensures grows { Grows st.old st.new }
    ensures ok { IfOk result (λ r. IsForgotten st.new f s r) }
{
    let _place = f.place();
    if is_past(st, s, f) {
        return Ok(s);
    }
    let mut seen = Memo::new(st.alloc());
    forget_new(st, &mut seen, s, f)
}

/// The set with the field forgotten, which is looked up where it was made before.
#[cycle(forget)]
fn forget_once(st: &mut Store, seen: &mut Memo<Id>, s: Id, f: Fid) -> Result<Id, AllocError>
    requires set { IsSet st.old s }
    requires field { f < 18 }
    requires seen { AreForgotten st.old f seen.old }
    ensures grows { Grows st.old st.new }
    ensures ok { IfOk result (λ r. IsForgotten st.new f s r) }
    ensures seen { OnOk result (AreForgotten st.new f seen.new) }
{
    if is_past(st, s, f) {
        return Ok(s);
    }
    if let Some(few) = few_here(st, s, f)? {
        return forget_children(st, s, f, &few);
    }
    if let Some(r) = known(seen, s) {
        return Ok(r);
    }
    let r = forget_new(st, seen, s, f)?;
    seen.insert(s, r)?;
    Ok(r)
}

/// Whether a set tests neither the field nor one before it.
fn is_past(st: &Store, s: Id, f: Fid) -> bool
    requires { IsId st.now s }
    ensures past { result ≡ true → f < root_field st.now s }
    ensures still { IsStill st.now s }
{
    match st.view(s) {
        Node::Leaf(_) => true,
        Node::Case(g, _) => f.place() < g.place(),
    }
}

/// The children of a set that tests the field first, where they are few: then finding the answer again costs less than keeping it.
fn few_here(st: &Store, s: Id, f: Fid) -> Result<Option<Vec<Id>>, AllocError>
    requires { IsId st.now s }
    ensures { IfOk result (λ o. IfSome o (λ ds. AreChildren st.now s f ds.items)) }
{
    match st.view(s) {
        Node::Case(g, parts) => {
            if *g == f && parts.len() <= FEW {
                Ok(Some(children(st.alloc(), parts.as_slice())?))
            } else {
                Ok(None)
            }
        }
        Node::Leaf(_) => Ok(None),
    }
}

/// The set with the field forgotten, made anew.
#[cycle(forget)]
fn forget_new(st: &mut Store, seen: &mut Memo<Id>, s: Id, f: Fid) -> Result<Id, AllocError>
    requires set { IsSet st.old s }
    requires field { f < 18 }
    requires seen { AreForgotten st.old f seen.old }
    ensures grows { Grows st.old st.new }
    ensures ok { IfOk result (λ r. IsForgotten st.new f s r) }
    ensures seen { OnOk result (AreForgotten st.new f seen.new) }
{
    match choice(st, s)? {
        Some((g, parts)) => forget_case(st, seen, s, g, parts.as_slice(), f),
        None => Ok(s),
    }
}

/// A set that tests a field, with the field forgotten.
#[cycle(forget)]
fn forget_case(
    st: &mut Store,
    seen: &mut Memo<Id>,
    s: Id,
    g: Fid,
    parts: &[(u64, Id)],
    f: Fid,
) -> Result<Id, AllocError>
    requires set { IsSet st.old s }
    requires field { f < 18 }
    requires case { IsCase st.old s g parts.now }
    requires seen { AreForgotten st.old f seen.old }
    ensures grows { Grows st.old st.new }
    ensures ok { IfOk result (λ r. IsForgotten st.new f s r) }
    ensures seen { OnOk result (AreForgotten st.new f seen.new) }
{
    let _laws = st.laws();
    if g.place() < f.place() {
        forget_parts(st, seen, s, g, parts, f)
    } else if g == f {
        forget_here(st, s, f, parts)
    } else {
        Ok(s)
    }
}

/// The field that a set tests first, with the set's parts.
fn choice(st: &Store, s: Id) -> Result<Option<(Fid, List<(u64, Id)>)>, AllocError>
    requires { IsId st.now s }
    ensures parts { IfOk result
        (λ o. MatchOption o (root_field st.now s ≡ 18) (λ x. IsCase st.now s x.0 x.1)) }
    ensures still { IsStill st.now s }
{
    match st.view(s) {
        Node::Leaf(_) => Ok(None),
        Node::Case(f, parts) => Ok(Some((*f, parts.copy()?))),
    }
}

/// A set that tests an earlier field first, with the field forgotten.
#[cycle(forget)]
fn forget_parts(
    st: &mut Store,
    seen: &mut Memo<Id>,
    s: Id,
    g: Fid,
    parts: &[(u64, Id)],
    f: Fid,
) -> Result<Id, AllocError>
    requires set { IsSet st.old s }
    requires field { f < 18 }
    requires case { IsCase st.old s g parts.now }
    requires before { g < f }
    requires seen { AreForgotten st.old f seen.old }
    ensures grows { Grows st.old st.new }
    ensures ok { IfOk result (λ r. IsForgotten st.new f s r) }
    ensures seen { OnOk result (AreForgotten st.new f seen.new) }
{
    let _laws = st.laws();
    let mut made = List::with_capacity(st.alloc(), parts.len())?;
    for (end, child) in parts {
        let r = forget_once(st, seen, *child, f)?;
        made.push((*end, r))?;
    }
    st.case(g, made)
}

/// A set that tests the field first, with the field forgotten: its children together.
fn forget_here(st: &mut Store, s: Id, f: Fid, parts: &[(u64, Id)]) -> Result<Id, AllocError>
    requires set { IsSet st.old s }
    requires case { IsCase st.old s f parts.now }
    ensures grows { Grows st.old st.new }
    ensures ok { IfOk result (λ r. IsForgotten st.new f s r) }
{
    let all = children(st.alloc(), parts)?;
    forget_children(st, s, f, &all)
}

/// A set that tests the field first and has these children, with the field forgotten: they together.
fn forget_children(st: &mut Store, s: Id, f: Fid, ds: &[Id]) -> Result<Id, AllocError>
    requires set { IsSet st.old s }
    requires children { AreChildren st.old s f ds.now }
    ensures grows { Grows st.old st.new }
    ensures ok { IfOk result (λ r. IsForgotten st.new f s r) }
{
    let _before = st.laws();
    let r = union_all(st, ds)?;
    let _after = st.laws();
    Ok(r)
}

/// The children of the parts.
fn children(alloc: Global, parts: &[(u64, Id)]) -> Result<Vec<Id>, AllocError>
    ensures { IfOk result (λ ds. ds.items ≡ map (λ p. p.1) parts.now) }
{
    parts.iter().map(|p| p.1).collect(alloc)
}
