//! The acts of a leaf, each with all its targets.
ghost use Rattle.std.specs.Prelude.{◌≡◌, ◌<◌, ◌≤◌, ◌∷◌, length, take, drop, nat_eq, IfOk};
ghost use Rattle.std.specs.List.{list_all, list_any};
ghost use Rattle.nk_determ.specs.Branches.{branch_of, branches_in, labels, targets_in};

use nk_field::List;
use nk_store::Out;
use std::alloc::{AllocError, Global};

/// Whether no out is to a label.
pub(crate) fn are_final(outs: &[Out]) -> bool
    ensures { result ≡ list_all (λ o. nat_eq o.target 0) outs.now }
{
    outs.iter().all(|o| o.target == 0)
}

/// Whether some out is to the end.
pub(crate) fn is_ended(outs: &[Out]) -> bool
    ensures { result ≡ list_any (λ o. nat_eq o.target 0) outs.now }
{
    outs.iter().any(|o| o.target == 0)
}

/// How many outs from the first on have its act.
pub(crate) fn run_length(outs: &[Out]) -> usize
    requires { 0 < length outs.now }
    ensures some { 0 < result }
    ensures within { result ≤ length outs.now }
    ensures is { branches_in outs.now
        ≡ branch_of (take result outs.now) ∷ branches_in (drop result outs.now) }
{
    let act = &outs[0].act;
    let mut end = 1;
    while end < outs.len() && outs[end].act == *act {
        end += 1;
    }
    end
}

/// The labels among the targets of outs: 0 is the end.
pub(crate) fn labels_in(alloc: Global, outs: &[Out]) -> Result<List<u64>, AllocError>
    ensures { IfOk result (λ ls. ls ≡ labels (targets_in outs.now)) }
{
    let mut all = List::with_capacity(alloc, label_count(outs))?;
    for o in outs {
        if o.target != 0 {
            all.push(o.target)?;
        }
    }
    Ok(all)
}

/// How many outs are to labels.
fn label_count(outs: &[Out]) -> usize {
    outs.iter().filter(|o| o.target != 0).count()
}
