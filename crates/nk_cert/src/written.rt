//! Two named policies written out together.
ghost use Rattle.std.specs.Prelude.{IfOk, MatchOption};
ghost use Rattle.nk_policy.specs.Tree.{tree_of};
ghost use Rattle.nk_cert.specs.Written.{IsNameUnknown, AreWrittenTogether};

use crate::pairing::number_after;
use nk_names::Program;
use nk_policy::Pol;
use std::alloc::{AllocError, Global};

/// Two named policies written out, the right one with its dups numbered on from the left one's; None where a name is no policy's.
/// The only error is that memory ran out.
pub fn both_written(
    alloc: Global,
    program: &Program,
    left: &str,
    right: &str,
) -> Result<Option<(Pol, Pol)>, AllocError>
    ensures { IfOk result (λ both. MatchOption both (IsNameUnknown program.now left.now right.now)
        (λ r. AreWrittenTogether program.now left.now right.now (tree_of r.0) (tree_of r.1))) }
{
    let Some(on_left) = program.find(left) else {
        return Ok(None);
    };
    let Some(on_right) = program.find(right) else {
        return Ok(None);
    };
    let p = on_left.written(alloc)?;
    let q = on_right.written_from(alloc, number_after(&p))?;
    Ok(Some((p, q)))
}
