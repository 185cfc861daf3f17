//! The difference of two named policies.
ghost use Rattle.std.specs.Prelude.{◌≡◌, Ok, Err, IfOk, IfErr};
ghost use Rattle.nk_difference.specs.Named.{IsNamedDifference};

use crate::predicates::Difference;
use crate::sides::difference;
use nk_bisim::CompareError;
use nk_cert::both_written;
use nk_field::Fields;
use nk_names::Program;
use std::alloc::Global;

/// Which packets two named policies of a program differ on, and the program's fields. A name that is no policy's is refused;
/// the only other error is that memory ran out. The program's policies are dropped once both are written out.
pub fn named_difference(
    alloc: Global,
    program: Program,
    left: &str,
    right: &str,
) -> Result<(Difference, Fields), CompareError>
    ensures difference { IfOk result (λ r. IsNamedDifference program left.now right.now (Ok r.0)) }
    ensures fields { IfOk result (λ r. r.1 ≡ program.fields) }
    ensures error { IfErr result (λ e. IsNamedDifference program left.now right.now (Err e)) }
{
    match both_written(alloc, &program, left, right)? {
        None => Err(CompareError::NoPolicy),
        Some(both) => {
            let (p, q) = both;
            let fields = program.into_fields();
            let found = difference(alloc, &fields, p, q)?;
            Ok((found, fields))
        }
    }
}
