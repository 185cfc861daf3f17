//! The answer of `equal LEFT RIGHT`.
ghost use Rattle.std.specs.Prelude.{IfOk};
ghost use Rattle.nk_names.specs.ProgramOf.{program_by};
ghost use Rattle.nk_names.specs.ProgramValue.{IsProgram};
ghost use Rattle.nk_verify_commands.specs.Comparing.{IsEqualAnswer, ToCompared};
ghost use Rattle.nk_reply.specs.Reply.{outcome_of};

use crate::messages::difference_message;
use nk_bisim::{CompareError, Compared, compare_owned_program};
use nk_certtext::certificate_text;
use nk_certtext::laws::certificates_of_policies_are_read;
use nk_input::{ReadText, read_program};
use nk_names::Program;
use nk_reply::CommandAnswer;
use nk_reply::messages::no_policy_message;
use std::alloc::{AllocError, Global};

/// What comparing the policies of these names answers, over the bytes of a text.
pub fn equal_answer(
    alloc: Global,
    left: &str,
    right: &str,
    bytes: Vec<u8>,
) -> Result<CommandAnswer, AllocError>
    ensures { IfOk result (λ s. IsEqualAnswer left.now right.now bytes.items (outcome_of s)) }
{
    match read_program(alloc, bytes)? {
        ReadText::Program(program) => answer_to_program(alloc, left, right, program),
        ReadText::Fault(line) => Ok(CommandAnswer::Text(line)),
    }
}

/// What comparing the policies of these names answers, over a program. Its policies are dropped once both are written out.
fn answer_to_program(
    alloc: Global,
    left: &str,
    right: &str,
    program: Program,
) -> Result<CommandAnswer, AllocError>
    requires is { IsProgram program.fields program.topo program.lets }
    ensures { IfOk result (λ s. ToCompared (program_by program) left.now right.now (outcome_of s)) }
{
    // This is a law: what is printed for two policies is read back.
    certificates_of_policies_are_read();
    match compare_owned_program(alloc, program, left, right) {
        Ok(answer) => {
            let (compared, fields) = answer;
            match compared {
                Compared::Related(certificate) => {
                    Ok(CommandAnswer::Done(certificate_text(alloc, &fields, &certificate)?))
                }
                Compared::Broken(found) => {
                    Ok(CommandAnswer::Differs(difference_message(alloc, &fields, &found)?))
                }
            }
        }
        Err(CompareError::NoPolicy) => Ok(CommandAnswer::Refused(no_policy_message(alloc)?)),
        Err(CompareError::NoMemory) => Err(AllocError),
    }
}
