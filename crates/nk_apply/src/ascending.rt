//! Two ascending lists of outs as one.
ghost use Rattle.std.specs.Prelude.{◌≡◌, ◌++◌, [], ◌∷◌, IfOk, OnOk};
ghost use Rattle.nk_apply.specs.Leaves.{merged};

use crate::leaves::copy_from;
use nk_field::List;
use nk_store::Out;
use std::alloc::{AllocError, Global};
use std::cmp::Ordering;

/// Two ascending lists as one.
pub(crate) fn join_sorted(alloc: Global, a: &[Out], b: &[Out]) -> Result<List<Out>, AllocError>
    ensures { IfOk result (λ r. r ≡ merged a.now b.now) }
{
    let mut all = List::with_capacity(alloc, a.len().saturating_add(b.len()))?;
    push_sorted(&mut all, a, b)?;
    Ok(all)
}

/// Puts two ascending lists at the end, as one.
fn push_sorted(all: &mut List<Out>, a: &[Out], b: &[Out]) -> Result<(), AllocError>
    ensures { OnOk result (all.new ≡ all.old ++ merged a.now b.now) }
{
    let mut i = 0;
    let mut k = 0;
    while i < a.len() && k < b.len() {
        match a[i].cmp(&b[k]) {
            Ordering::Less => {
                push_copy(all, &a[i])?;
                i += 1;
            }
            Ordering::Equal => {
                push_copy(all, &a[i])?;
                i += 1;
                k += 1;
            }
            Ordering::Greater => {
                push_copy(all, &b[k])?;
                k += 1;
            }
        }
    }
    copy_from(all, a, i)?;
    copy_from(all, b, k)?;
    Ok(())
}

/// Puts a copy of an out at the end.
#[inline]
fn push_copy(all: &mut List<Out>, o: &Out) -> Result<(), AllocError>
    ensures { OnOk result (all.new ≡ all.old ++ o.now ∷ []) }
{
    all.push(o.copy()?)
}
