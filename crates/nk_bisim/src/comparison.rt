//! Two named policies compared.
ghost use Rattle.std.specs.Prelude.{◌≡◌, Ok, Err, IfOk, IfErr};
ghost use Rattle.nk_bisim.specs.Answers.{IsCompared};

use crate::answer::CompareError;
use nk_cert::{Compared, both_written, compare_owned};
use nk_field::Fields;
use nk_names::Program;
use std::alloc::Global;

/// Whether two named policies give the same histories on every packet in range, located or not, the tag being a field
/// like any other. Where they do, the answer is the printed certificate; where they don't, it is the least history that
/// one of them alone has. A name that is no policy's is refused; the only other error is that memory ran out.
pub fn compare(
    alloc: Global,
    program: &Program,
    left: &str,
    right: &str,
) -> Result<Compared, CompareError>
    ensures { IsCompared program.now left.now right.now result }
{
    match both_written(alloc, program, left, right)? {
        None => Err(CompareError::NoPolicy),
        Some(both) => {
            let (p, q) = both;
            Ok(compare_owned(alloc, &program.fields, p, q)?)
        }
    }
}

/// Whether two named policies give the same histories on every packet in range, as `compare` answers it, and the program's
/// fields. The policies of the program are dropped once both are written out. A name that is no policy's is refused; the only
/// other error is that memory ran out.
pub fn compare_owned_program(
    alloc: Global,
    program: Program,
    left: &str,
    right: &str,
) -> Result<(Compared, Fields), CompareError>
    ensures compared { IfOk result (λ r. IsCompared program left.now right.now (Ok r.0)) }
    ensures fields { IfOk result (λ r. r.1 ≡ program.fields) }
    ensures error { IfErr result (λ e. IsCompared program left.now right.now (Err e)) }
{
    match both_written(alloc, &program, left, right)? {
        None => Err(CompareError::NoPolicy),
        Some(both) => {
            let (p, q) = both;
            let fields = program.into_fields();
            let compared = compare_owned(alloc, &fields, p, q)?;
            Ok((compared, fields))
        }
    }
}
