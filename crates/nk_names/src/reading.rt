//! The program of a text.
ghost use Rattle.std.specs.Prelude.{All, map};
ghost use Rattle.nk_grammar.specs.File.{declaration_of, IsWritten};
ghost use Rattle.nk_names.specs.ProgramOf.{NamesReturns, program_by, program_of};

use crate::fault::NamesError;
use crate::{Program, ProgramReader};
use nk_grammar::File;
use std::alloc::Global;

/// The program of a text's declarations, or the first fault of the text.
///
/// The declarations are taken in order, and a name means what stands above it. The names in a policy count as written out.
/// The largest values of the text's fields are at most 281,474,976,710,655, as `nk_grammar::file` reads them from the tokens
/// of a text.
pub fn program(alloc: Global, f: &File) -> Result<Program, NamesError>
    requires { All IsWritten (map declaration_of f.now.decls) }
    ensures { NamesReturns program_by result (program_of (map declaration_of f.now.decls)) }
{
    let mut reader = ProgramReader::new(alloc)?;
    for decl in f.decls.as_slice() {
        reader.declare(alloc, decl)?;
    }
    reader.finish()
}
