//! The lines of a difference.
ghost use Rattle.std.specs.Prelude.{◌≡◌, IfOk};
ghost use Rattle.nk_policy.specs.Tree.{tree_of};
ghost use Rattle.nk_change_impact.specs.Impact.{impact_lines};

use nk_field::Fields;
use nk_policy::{Pol, pol_text};
use std::alloc::{AllocError, Global};

/// Both predicates, each as a policy with a name of its own, on a line of its own.
pub(crate) fn impact_message(
    alloc: Global,
    fields: &Fields,
    left: &Pol,
    right: &Pol,
) -> Result<Vec<u8>, AllocError>
    ensures { IfOk result (λ v. v.items
        ≡ impact_lines fields.now (tree_of left.now) (tree_of right.now)) }
{
    let on_left = pol_text(alloc, fields, left)?;
    let on_right = pol_text(alloc, fields, right)?;
    let mut message = Vec::from_slice(alloc, b"let left_alone = ")?;
    message.extend_from_slice(&on_left)?;
    message.extend_from_slice(b"\nlet right_alone = ")?;
    message.extend_from_slice(&on_right)?;
    message.extend_from_slice(b"\n")?;
    Ok(message)
}
