//! The answer of `check_apart NAME A B` and of `check_waypoint NAME A W B`.
ghost use Rattle.std.specs.Prelude.{IfOk};
ghost use Rattle.nk_names.specs.ProgramOf.{program_by};
ghost use Rattle.nk_names.specs.ProgramValue.{IsProgram};
ghost use Rattle.nk_cert.specs.Values.{certificate_value};
ghost use Rattle.nk_cert.specs.Verdicts.{HasPredicates};
ghost use Rattle.nk_query.specs.Answers.{asked_in};
ghost use Rattle.nk_query.specs.Asked.{apart, waypoint};
ghost use Rattle.nk_verify_commands.specs.CertifiedText.{TellsNoFault};
ghost use Rattle.nk_reply.specs.Meant.{IsMeantBy};
ghost use Rattle.nk_verify_commands.specs.Judging.{IsJudgeAnswer, ToJudged};
ghost use Rattle.nk_reply.specs.Reply.{answer_in, outcome_of};
ghost use Rattle.nk_reply.specs.Use.{use_of};

use crate::asking::{apart_query, waypoint_query};
use crate::certified_text::{Judge, judge_text};
use crate::messages::{invalid_message, query_message};
use nk_cert::{Certificate, Verdict};
use nk_io::Source;
use nk_names::Program;
use nk_query::{Query, check_query};
use nk_reply::{CommandAnswer, Reply};
use nk_words::Bytes;
use std::alloc::{AllocError, Global};

impl<'a> Judge for Query<'a> {
    ghost use Rattle.nk_query.specs.Answers.{asked_in};
    ghost use Rattle.nk_verify_commands.specs.Judging.{ToJudged};

    ghost tells = { λ query outcome_of c o. ToJudged outcome_of (asked_in query) c o };

    fn judge(
        &self,
        alloc: Global,
        program: Program,
        certificate: &Certificate,
    ) -> Result<CommandAnswer, AllocError> {
        answer_to_certificate(alloc, self, &program, certificate)
    }
}

/// What checking a certificate for `apart NAME A B` means to say, over a source that gives a text with one.
pub fn check_apart_reply<S: Source>(
    alloc: Global,
    name: &Bytes,
    from: &Bytes,
    target: &Bytes,
    source: &mut S,
) -> Reply
    ensures { IsMeantBy (IsJudgeAnswer (apart name.now from.now target.now))
        (use_of S.left S.faults source.old source.new) (answer_in result) }
{
    judge_text(alloc, &apart_query(name, from, target), source)
}

/// What checking a certificate for `waypoint NAME A W B` means to say, over a source that gives a text with one.
pub fn check_waypoint_reply<S: Source>(
    alloc: Global,
    name: &Bytes,
    from: &Bytes,
    middle: &Bytes,
    target: &Bytes,
    source: &mut S,
) -> Reply
    ensures { IsMeantBy (IsJudgeAnswer (waypoint name.now from.now middle.now target.now))
        (use_of S.left S.faults source.old source.new) (answer_in result) }
{
    judge_text(alloc, &waypoint_query(name, from, middle, target), source)
}

/// What is found of a certificate over a program, for a query.
fn answer_to_certificate(
    alloc: Global,
    query: &Query,
    program: &Program,
    certificate: &Certificate,
) -> Result<CommandAnswer, AllocError>
    requires is { IsProgram program.now.fields program.now.topo program.now.lets }
    requires predicates { HasPredicates (certificate_value certificate.now) }
    ensures { IfOk result (λ s.
        TellsNoFault (λ o. ToJudged (program_by program.now) (asked_in query.now)
        (certificate_value certificate.now) o) (outcome_of s)) }
{
    match check_query(alloc, program, query, certificate) {
        Ok(Verdict::Valid) => Ok(CommandAnswer::Done(Vec::from_slice(alloc, b"valid\n")?)),
        Ok(Verdict::Invalid { row, part }) => {
            Ok(CommandAnswer::Differs(invalid_message(alloc, row, part)?))
        }
        Err(cause) => Ok(CommandAnswer::Refused(query_message(alloc, cause)?)),
    }
}
