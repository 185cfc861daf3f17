//! The answer to two names over the bytes of a text.
ghost use Rattle.std.specs.Prelude.{IfOk};
ghost use Rattle.nk_names.specs.ProgramOf.{program_by};
ghost use Rattle.nk_names.specs.ProgramValue.{IsProgram};
ghost use Rattle.nk_reply.specs.Reply.{outcome_of};
ghost use Rattle.nk_change_impact.specs.Impact.{IsImpactAnswer, ToImpactProgram};

use crate::text::impact_message;
use nk_bisim::CompareError;
use nk_difference::{Difference, named_difference};
use nk_input::{ReadText, read_program};
use nk_names::Program;
use nk_reply::CommandAnswer;
use nk_reply::messages::no_policy_message;
use std::alloc::{AllocError, Global};

/// Which packets two named policies differ on, over the bytes of a text: `same`, or two lines with the predicates of the packets
/// from which the left policy has a history that the right one hasn't, and the other way round. The only error is that memory
/// ran out.
pub fn impact_answer(
    alloc: Global,
    left: &str,
    right: &str,
    bytes: Vec<u8>,
) -> Result<CommandAnswer, AllocError>
    ensures { IfOk result (λ s. IsImpactAnswer left.now right.now bytes.items (outcome_of s)) }
{
    match read_program(alloc, bytes)? {
        ReadText::Program(program) => answer_to_program(alloc, left, right, program),
        ReadText::Fault(line) => Ok(CommandAnswer::Text(line)),
    }
}

/// Which packets two named policies of a program differ on. The program's policies are dropped once both are written out.
fn answer_to_program(
    alloc: Global,
    left: &str,
    right: &str,
    program: Program,
) -> Result<CommandAnswer, AllocError>
    requires is { IsProgram program.fields program.topo program.lets }
    ensures { IfOk result (λ s.
        ToImpactProgram (program_by program) left.now right.now (outcome_of s)) }
{
    match named_difference(alloc, program, left, right) {
        Ok(answer) => {
            let (difference, fields) = answer;
            match difference {
                Difference::Same => Ok(CommandAnswer::Done(Vec::from_slice(alloc, b"same\n")?)),
                Difference::Differs(on_left, on_right) => {
                    let message = impact_message(alloc, &fields, &on_left, &on_right)?;
                    Ok(CommandAnswer::Differs(message))
                }
            }
        }
        Err(CompareError::NoPolicy) => Ok(CommandAnswer::Refused(no_policy_message(alloc)?)),
        Err(CompareError::NoMemory) => Err(AllocError),
    }
}
