//! The certificate of a text's rows.
ghost use Rattle.std.specs.Prelude.{map, IfOk};
ghost use Rattle.nk_grammar.specs.Certified.{row_value as written_row};
ghost use Rattle.nk_cert.specs.Verdicts.{HasPredicates};
ghost use Rattle.nk_cert.specs.Values.{certificate_value};
ghost use Rattle.nk_certtext.specs.Rows.{HasStartRow, CertReturns, certificate_of};

use crate::error::CertError;
use crate::rows::RowsRead;
use nk_cert::Certificate;
use nk_grammar::File;
use nk_names::{Program, resolve};
use std::alloc::Global;

/// The certificate of a text's rows, or their first fault.
///
/// The rows are those of a text with a certificate, the start row first, and are taken in the order of the text. Of each
/// row the positions come first: they ascend strictly, and no earlier row has them, else the row is a certificate fault at
/// the line of its word `row`. Then its predicate is that of `nk_names::resolve` with its faults. A row's predicate may
/// have any size. Each row that is read has a predicate, as `nk_check::check` asks.
pub fn read_cert(alloc: Global, program: &Program, file: &File) -> Result<Certificate, CertError>
    requires start { HasStartRow (map written_row file.now.rows) }
    ensures read { CertReturns certificate_value result
        (certificate_of program.now.fields (map written_row file.now.rows)) }
    ensures predicates { IfOk result (λ c. HasPredicates (certificate_value c)) }
{
    let mut rows = RowsRead::Nothing;
    for row in file.rows.as_slice() {
        let predicate = resolve(alloc, program, &row.pred, row.line);
        rows.add(alloc, row, predicate)?;
    }
    rows.finish(alloc)
}
