//! The answer of `compile NAME`.
ghost use Rattle.std.specs.Prelude.{◌≡◌, ℕ, List, IfOk};
ghost use Rattle.nk_names.specs.ProgramOf.{program_by};
ghost use Rattle.nk_names.specs.ProgramValue.{IsProgram};
ghost use Rattle.nk_table.specs.declared.Tables.{Tables};
ghost use Rattle.nk_tabtext.specs.Text.{table_bytes};
ghost use Rattle.nk_compile.specs.Headline.{IsCompiled};
ghost use Rattle.nk_compile.specs.Preparing.{IsNumberedByName};
ghost use Rattle.nk_names.specs.declared.Program.{Program};
ghost use Rattle.nk_compile_commands.specs.Compiling.{IsCompileAnswer, ToProgram};
ghost use Rattle.nk_input.specs.Declarable.{CanBeDeclared};
ghost use Rattle.nk_reply.specs.Reply.{outcome_of};

use crate::laws::compiled_tables_are_printable;
use crate::messages::refusal_message;
use crate::text_sink::TextSink;
use nk_compile::{CompileError, Numbered, hand_tables, number};
use nk_field::Fields;
use nk_input::{ReadText, read_program};
use nk_names::Program;
use nk_reply::CommandAnswer;
use nk_tabtext::printed_tables_are_read;
use nk_topo::Topo;
use std::alloc::{AllocError, Global};

/// What compiling the policy of this name answers, over the bytes of a text.
pub fn compile_answer(
    alloc: Global,
    name: &str,
    bytes: Vec<u8>,
) -> Result<CommandAnswer, AllocError>
    ensures { IfOk result (λ s. IsCompileAnswer name.now bytes.items (outcome_of s)) }
{
    match read_program(alloc, bytes)? {
        ReadText::Program(program) => answer_to_program(alloc, name, program),
        ReadText::Fault(line) => Ok(CommandAnswer::Text(line)),
    }
}

/// What compiling the policy of this name answers, over a program.
fn answer_to_program(
    alloc: Global,
    name: &str,
    program: Program,
) -> Result<CommandAnswer, AllocError>
    requires is { IsProgram program.fields program.topo program.lets }
    requires declared { CanBeDeclared (program_by program) }
    ensures { IfOk result (λ s. ToProgram (program_by program) name.now (outcome_of s)) }
{
    // These are laws: the tables that compiling gives can be printed, and printed tables are read back.
    compiled_tables_are_printable();
    printed_tables_are_read();
    match number(alloc, &program, name) {
        Ok(numbered) => Ok(CommandAnswer::Done(printed(alloc, numbered, program)?)),
        Err(CompileError::Refused(reason)) => {
            Ok(CommandAnswer::Refused(refusal_message(alloc, &program.fields, &reason)?))
        }
        Err(CompileError::NoMemory) => Err(AllocError),
    }
}

/// The text of the printed tables of a program's policy. The program's policies are dropped before the first table is made.
fn printed(alloc: Global, numbered: Numbered, program: Program) -> Result<Vec<u8>, AllocError>
    requires { (name : List ℕ) × IsNumberedByName program name numbered }
    ensures { (name : List ℕ) → IsNumberedByName program name numbered
        → IfOk result (λ text. (t : Tables) × IsCompiled program name t
        × (text.items ≡ table_bytes t)) }
{
    let (fields, topo) = declarations(program);
    text_of(alloc, numbered, &fields, &topo)
}

/// The fields and the topology of a program. Its policies are dropped.
fn declarations(program: Program) -> (Fields, Topo)
    ensures fields { result.0 ≡ program.fields }
    ensures topo { result.1 ≡ program.topo }
{
    program.into_declarations()
}

/// The text of the printed tables of a named policy. Each row is written as soon as it is made, and none is kept.
fn text_of(
    alloc: Global,
    numbered: Numbered,
    fields: &Fields,
    topo: &Topo,
) -> Result<Vec<u8>, AllocError>
    requires { (program : Program) × (name : List ℕ) × (program.fields ≡ fields.now)
        × (program.topo ≡ topo.now)
        × IsNumberedByName program name numbered }
    ensures { (program : Program) (name : List ℕ) → program.fields ≡ fields.now
        → program.topo ≡ topo.now
        → IsNumberedByName program name numbered
        → IfOk result (λ text. (t : Tables) × IsCompiled program name t
        × (text.items ≡ table_bytes t)) }
{
    let mut sink = TextSink::new(alloc, fields, topo)?;
    hand_tables(numbered, topo, &mut sink)?;
    Ok(sink.writer.end())
}
