//! The answer of `apart NAME A B` and of `waypoint NAME A W B`.
ghost use Rattle.std.specs.Prelude.{◌≡◌, IfOk};
ghost use Rattle.nk_names.specs.ProgramOf.{program_by};
ghost use Rattle.nk_names.specs.ProgramValue.{IsProgram};
ghost use Rattle.nk_query.specs.Answers.{asked_in};
ghost use Rattle.nk_query.specs.Asked.{apart, waypoint};
ghost use Rattle.nk_verify_commands.specs.Asking.{IsAskAnswer, ToAsked};
ghost use Rattle.nk_reply.specs.Reply.{outcome_of};

use crate::messages::{broken_message, query_message};
use nk_certtext::cert_text;
use nk_certtext::laws::certificates_of_policies_are_read;
use nk_input::{ReadText, read_program};
use nk_names::Program;
use nk_query::{Answer, Query, ask};
use nk_reply::CommandAnswer;
use nk_words::Bytes;
use std::alloc::{AllocError, Global};

/// The query of `apart NAME A B`.
pub fn apart_query<'a>(name: &'a Bytes, from: &'a Bytes, target: &'a Bytes) -> Query<'a>
    ensures { asked_in result ≡ apart name.entry.now from.entry.now target.entry.now }
{
    Query::Apart {
        name: name.as_str(),
        from: from.as_str(),
        target: target.as_str(),
    }
}

/// The query of `waypoint NAME A W B`.
pub fn waypoint_query<'a>(
    name: &'a Bytes,
    from: &'a Bytes,
    middle: &'a Bytes,
    target: &'a Bytes,
) -> Query<'a>
    ensures { asked_in result
        ≡ waypoint name.entry.now from.entry.now middle.entry.now target.entry.now }
{
    Query::Waypoint {
        name: name.as_str(),
        from: from.as_str(),
        middle: middle.as_str(),
        target: target.as_str(),
    }
}

/// What asking a query answers, over the bytes of a text.
pub fn ask_answer(alloc: Global, query: &Query, bytes: Vec<u8>) -> Result<CommandAnswer, AllocError>
    ensures { IfOk result (λ s. IsAskAnswer (asked_in query.now) bytes.items (outcome_of s)) }
{
    match read_program(alloc, bytes)? {
        ReadText::Program(program) => answer_to_program(alloc, query, &program),
        ReadText::Fault(line) => Ok(CommandAnswer::Text(line)),
    }
}

/// What asking a query answers, over a program.
fn answer_to_program(
    alloc: Global,
    query: &Query,
    program: &Program,
) -> Result<CommandAnswer, AllocError>
    requires is { IsProgram program.now.fields program.now.topo program.now.lets }
    ensures { IfOk result (λ s.
        ToAsked (program_by program.now) (asked_in query.now) (outcome_of s)) }
{
    // This is a law: what is printed for two policies is read back.
    certificates_of_policies_are_read();
    match ask(alloc, program, query) {
        Ok(Answer::Holds(certificate)) => {
            Ok(CommandAnswer::Done(cert_text(alloc, program, &certificate)?))
        }
        Ok(Answer::Breaks(found)) => {
            Ok(CommandAnswer::Differs(broken_message(alloc, &program.fields, &found)?))
        }
        Err(cause) => Ok(CommandAnswer::Refused(query_message(alloc, cause)?)),
    }
}
