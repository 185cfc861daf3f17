//! The answer of `compact NAME`.
ghost use Rattle.std.specs.Prelude.{◌≡◌, ◌++◌, true, IfOk, OnOk, codes, decimal};
ghost use Rattle.std.specs.List.{flat_map};
ghost use Rattle.nk_field.specs.Texts.{history_bytes, packet_bytes};
ghost use Rattle.nk_names.specs.ProgramOf.{program_by};
ghost use Rattle.nk_names.specs.ProgramValue.{IsProgram};
ghost use Rattle.nk_tabtext.specs.InOrder.{AreInOrder};
ghost use Rattle.nk_compact_command.specs.Compacting.{IsCompactAnswer, ToCompacted, distinguishing_line, compact_bytes};
ghost use Rattle.nk_input.specs.Declarable.{CanBeDeclared};
ghost use Rattle.nk_reply.specs.Reply.{outcome_of};

use crate::laws::{compacted_tables_are_in_order, compacted_tables_are_printable};
use itoa::Buffer;
use nk_compact::{Compact, DistinguishingHistory, compile_compact};
use nk_compile::CompileError;
use nk_compile_commands::refusal_message;
use nk_field::{Fields, history_text, packet_text};
use nk_input::{ReadText, read_program};
use nk_names::Program;
use nk_reply::CommandAnswer;
use nk_tabtext::{printed_tables_are_read, table_text};
use std::alloc::{AllocError, Global};

/// What compacting the policy of this name answers, over the bytes of a text.
pub fn compact_answer(
    alloc: Global,
    name: &str,
    bytes: Vec<u8>,
) -> Result<CommandAnswer, AllocError>
    ensures { IfOk result (λ s. IsCompactAnswer name.now bytes.items (outcome_of s)) }
{
    match read_program(alloc, bytes)? {
        ReadText::Program(program) => answer_to_program(alloc, name, &program),
        ReadText::Fault(line) => Ok(CommandAnswer::Text(line)),
    }
}

/// What compacting the policy of this name answers, over a program.
fn answer_to_program(
    alloc: Global,
    name: &str,
    program: &Program,
) -> Result<CommandAnswer, AllocError>
    requires is { IsProgram program.now.fields program.now.topo program.now.lets }
    requires declared { CanBeDeclared (program_by program.now) }
    ensures { IfOk result (λ s. ToCompacted (program_by program.now) name.now (outcome_of s)) }
{
    // These are laws: the merged tables are in order and can be printed, and printed tables are read back.
    compacted_tables_are_in_order();
    compacted_tables_are_printable();
    printed_tables_are_read();
    match compile_compact(alloc, program, name) {
        Ok(compact) => Ok(CommandAnswer::Done(compact_text(alloc, &program.fields, &compact)?)),
        Err(CompileError::Refused(reason)) => {
            Ok(CommandAnswer::Refused(refusal_message(alloc, &program.fields, &reason)?))
        }
        Err(CompileError::NoMemory) => Err(AllocError),
    }
}

/// The text of the tables, and after it a comment line for each two tags.
fn compact_text(alloc: Global, fields: &Fields, compact: &Compact) -> Result<Vec<u8>, AllocError>
    requires { AreInOrder compact.now.tables }
    ensures { IfOk result (λ text. text.items ≡ compact_bytes fields.now compact.now) }
{
    let mut out = table_text(alloc, &compact.tables)?;
    push_distinguishing_lines(alloc, &mut out, fields, compact.aparts.as_slice())?;
    Ok(out)
}

/// Appends a comment line for each two tags.
fn push_distinguishing_lines(
    alloc: Global,
    out: &mut Vec<u8>,
    fields: &Fields,
    aparts: &[DistinguishingHistory],
) -> Result<(), AllocError>
    ensures { OnOk result (out.new.items
        ≡ out.old.items ++ flat_map (distinguishing_line fields.now) aparts.now) }
{
    for apart in aparts {
        push_distinguishing_line(alloc, out, fields, apart)?;
    }
    Ok(())
}

/// Appends the comment line of what tells two tags apart.
fn push_distinguishing_line(
    alloc: Global,
    out: &mut Vec<u8>,
    fields: &Fields,
    apart: &DistinguishingHistory,
) -> Result<(), AllocError>
    ensures { OnOk result
        (out.new.items ≡ out.old.items ++ distinguishing_line fields.now apart.now) }
{
    out.extend_from_slice(b"# apart ")?;
    push_tags(out, apart)?;
    push_alone(alloc, out, fields, apart)
}

/// Appends two tags, and which of them has the history.
fn push_tags(out: &mut Vec<u8>, apart: &DistinguishingHistory) -> Result<(), AllocError>
    ensures { OnOk result (out.new.items
        ≡ out.old.items ++ decimal apart.now.first ++ codes " " ++ decimal apart.now.second
        ++ codes " : " ++ decimal apart.now.alone) }
{
    push_number(out, apart.first)?;
    out.extend_from_slice(b" ")?;
    push_number(out, apart.second)?;
    out.extend_from_slice(b" : ")?;
    push_number(out, apart.alone)
}

/// Appends the packet that a history starts at, and the history, with every field.
fn push_alone(
    alloc: Global,
    out: &mut Vec<u8>,
    fields: &Fields,
    apart: &DistinguishingHistory,
) -> Result<(), AllocError>
    ensures { OnOk result (out.new.items
        ≡ out.old.items ++ codes " alone : start " ++ packet_bytes fields.now true apart.now.start
        ++ codes " : history " ++ history_bytes fields.now true apart.now.history ++ codes "\n") }
{
    let start = packet_text(alloc, fields, &apart.start, true)?;
    let history = history_text(alloc, fields, &apart.history, true)?;
    out.extend_from_slice(b" alone : start ")?;
    out.extend_from_slice(&start)?;
    out.extend_from_slice(b" : history ")?;
    out.extend_from_slice(&history)?;
    out.extend_from_slice(b"\n")
}

/// Appends a number.
fn push_number(out: &mut Vec<u8>, n: u64) -> Result<(), AllocError>
    ensures { OnOk result (out.new.items ≡ out.old.items ++ decimal n) }
{
    let mut buffer = Buffer::new();
    out.extend_from_slice(buffer.format(n).as_bytes())
}
