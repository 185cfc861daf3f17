//! Assignments that stand alone after a test or a range, each drawn once for a sum. A table that sends some thousand intervals of
//! destinations to a few ports has these few assignments: to find one takes some tens of instructions, to draw it some 700.
ghost use Rattle.std.specs.Prelude.{◌≡◌, true, drop, IfOk, IfSome, OnOk};
ghost use Rattle.nk_policy.specs.Policy.{assign, no_part, part};
ghost use Rattle.nk_policy.specs.Tree.{tree_of, trees_of};
ghost use Rattle.nk_store.specs.StoreState.{StoreState, Grows};
ghost use Rattle.nk_auto.specs.Continued.{IsSilent};
ghost use Rattle.nk_auto.specs.ByValue.{AreAssignments};

use crate::silence::silent_set;
use nk_field::{Fid, List};
use nk_policy::Pol;
use nk_store::{Id, Store};
use std::alloc::AllocError;

/// How many assignments are remembered at most: the more there are, the longer is a search in vain.
const MOST: usize = 8;

/// The field and the value of the assignment that is all that stands after the first part.
pub(crate) fn assignment_after(ps: &[Pol]) -> Option<(Fid, u64)>
    ensures { IfSome result (λ x. trees_of (drop 1 ps.now) ≡ part (assign x.0 x.1) no_part) }
{
    if ps.len() != 2 {
        return None;
    }
    assigned(&ps[1])
}

/// The field and the value of an assignment.
fn assigned(p: &Pol) -> Option<(Fid, u64)>
    ensures { IfSome result (λ x. tree_of p.now ≡ assign x.0 x.1) }
{
    match p {
        Pol::Set(f, n) => Some((*f, *n)),
        _ => None,
    }
}

/// The diagram of an assignment, which is drawn where it isn't remembered.
pub(crate) fn drawn_once(
    st: &mut Store,
    f: Fid,
    n: u64,
    drawn: &mut List<((Fid, u64), Id)>,
) -> Result<Id, AllocError>
    requires { AreAssignments st.old drawn.old }
    ensures grows { Grows st.old st.new }
    ensures ok { IfOk result (λ d. IsSilent st.new d (assign f n)) }
    ensures drawn { OnOk result (AreAssignments st.new drawn.new) }
{
    if let Some(d) = remembered(drawn.as_slice(), f, n) {
        return Ok(d);
    }
    let d = silent_set(st, f, n)?;
    remember(drawn, f, n, d)?;
    Ok(d)
}

/// The diagram of an assignment, if it is remembered.
fn remembered(drawn: &[((Fid, u64), Id)], f: Fid, n: u64) -> Option<Id>
    ensures { IfSome result (λ d. (st : StoreState) → AreAssignments st drawn.now
        → IsSilent st d (assign f n)) }
{
    for entry in drawn {
        if is_for(entry, f, n) {
            return Some(entry.1);
        }
    }
    None
}

/// Whether the diagram that is remembered is that of an assignment.
fn is_for(entry: &((Fid, u64), Id), f: Fid, n: u64) -> bool
    ensures field { result ≡ true → entry.now.0.0 ≡ f }
    ensures value { result ≡ true → entry.now.0.1 ≡ n }
{
    entry.0.1 == n && entry.0.0 == f
}

/// Remembers the diagram of an assignment, while there is room.
fn remember(drawn: &mut List<((Fid, u64), Id)>, f: Fid, n: u64, d: Id) -> Result<(), AllocError>
    ensures { OnOk result ((st : StoreState) → AreAssignments st drawn.old
        → IsSilent st d (assign f n)
        → AreAssignments st drawn.new) }
{
    if drawn.len() >= MOST {
        return Ok(());
    }
    drawn.push(((f, n), d))
}
