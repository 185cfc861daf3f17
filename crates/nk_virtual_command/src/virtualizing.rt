//! The answer of `virtual NAME`.
ghost use Rattle.std.specs.Prelude.{IfOk};
ghost use Rattle.nk_policy.specs.Tree.{tree_of};
ghost use Rattle.nk_names.specs.ProgramOf.{program_by};
ghost use Rattle.nk_names.specs.ProgramValue.{IsProgram};
ghost use Rattle.nk_virtual.specs.Answers.{IsPhysical};
ghost use Rattle.nk_input.specs.Declarable.{CanBeDeclared};
ghost use Rattle.nk_reply.specs.Reply.{outcome_of};
ghost use Rattle.nk_virtual_command.specs.Virtualizing.{IsVirtualizeAnswer, ToVirtual};

use crate::messages::unphysical_message;
use nk_compile::{CompileError, compile_policy};
use nk_compile_commands::laws::{policies_tables_are_in_order, policies_tables_are_printable};
use nk_compile_commands::refusal_message;
use nk_input::{ReadText, read_program};
use nk_names::Program;
use nk_policy::Pol;
use nk_reply::CommandAnswer;
use nk_tabtext::{printed_tables_are_read, table_text};
use nk_virtual::{VirtualError, physical};
use std::alloc::{AllocError, Global};

/// What virtualizing the policy of this name answers, over the bytes of a text.
pub fn virtual_answer(
    alloc: Global,
    name: &str,
    bytes: Vec<u8>,
) -> Result<CommandAnswer, AllocError>
    ensures { IfOk result (λ s. IsVirtualizeAnswer name.now bytes.items (outcome_of s)) }
{
    match read_program(alloc, bytes)? {
        ReadText::Program(program) => answer_to_program(alloc, name, &program),
        ReadText::Fault(line) => Ok(CommandAnswer::Text(line)),
    }
}

/// What virtualizing the policy of this name answers, over a program.
fn answer_to_program(
    alloc: Global,
    name: &str,
    program: &Program,
) -> Result<CommandAnswer, AllocError>
    requires is { IsProgram program.now.fields program.now.topo program.now.lets }
    requires declared { CanBeDeclared (program_by program.now) }
    ensures { IfOk result (λ s. ToVirtual (program_by program.now) name.now (outcome_of s)) }
{
    match physical(alloc, program, name) {
        Ok(policy) => answer_to_physical(alloc, name, program, &policy),
        Err(VirtualError::Refused(reason)) => {
            Ok(CommandAnswer::Refused(unphysical_message(alloc, &program.fields, &reason)?))
        }
        Err(VirtualError::NoMemory) => Err(AllocError),
    }
}

/// What virtualizing the policy of this name answers, where its physical policy is this one.
fn answer_to_physical(
    alloc: Global,
    name: &str,
    program: &Program,
    policy: &Pol,
) -> Result<CommandAnswer, AllocError>
    requires is { IsProgram program.now.fields program.now.topo program.now.lets }
    requires declared { CanBeDeclared (program_by program.now) }
    requires physical { IsPhysical program.now name.now (tree_of policy.now) }
    ensures { IfOk result (λ s. ToVirtual (program_by program.now) name.now (outcome_of s)) }
{
    // These are laws: the tables that compiling gives are in order and can be printed, and printed tables are read back.
    policies_tables_are_in_order();
    policies_tables_are_printable();
    printed_tables_are_read();
    match compile_policy(alloc, program, policy) {
        Ok(tables) => Ok(CommandAnswer::Done(table_text(alloc, &tables)?)),
        Err(CompileError::Refused(reason)) => {
            Ok(CommandAnswer::Refused(refusal_message(alloc, &program.fields, &reason)?))
        }
        Err(CompileError::NoMemory) => Err(AllocError),
    }
}
