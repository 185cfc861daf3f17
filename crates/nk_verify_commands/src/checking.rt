//! The answer of `check LEFT RIGHT`.
ghost use Rattle.std.specs.Prelude.{IfOk};
ghost use Rattle.nk_names.specs.ProgramOf.{program_by};
ghost use Rattle.nk_names.specs.ProgramValue.{IsProgram};
ghost use Rattle.nk_cert.specs.Values.{certificate_value};
ghost use Rattle.nk_cert.specs.Verdicts.{HasPredicates};
ghost use Rattle.nk_verify_commands.specs.CertifiedText.{TellsNoFault};
ghost use Rattle.nk_verify_commands.specs.Checking.{IsCheckAnswer, ToChecked};
ghost use Rattle.nk_reply.specs.Meant.{IsMeantBy};
ghost use Rattle.nk_reply.specs.Reply.{answer_in, outcome_of};
ghost use Rattle.nk_reply.specs.Use.{use_of};

use crate::certified_text::{Judge, judge_text};
use crate::messages::invalid_message;
use nk_cert::{Certificate, Verdict};
use nk_check::laws::a_certificate_shows_equality;
use nk_check::{CheckError, check_owned};
use nk_io::Source;
use nk_names::Program;
use nk_reply::messages::no_policy_message;
use nk_reply::{CommandAnswer, Reply};
use std::alloc::{AllocError, Global};

/// The names of two policies that a certificate is to be one for.
#[derive(Drop)]
struct NamedPair<'a> {
    left: &'a str,
    right: &'a str,
}

impl<'a> Judge for NamedPair<'a> {
    ghost use Rattle.nk_verify_commands.specs.Checking.{ToChecked};

    ghost tells = { λ names outcome_of c o. ToChecked outcome_of names.left.now names.right.now c o };

    fn judge(
        &self,
        alloc: Global,
        program: Program,
        certificate: &Certificate,
    ) -> Result<CommandAnswer, AllocError> {
        answer_to_certificate(alloc, self.left, self.right, program, certificate)
    }
}

/// What checking a certificate means to say, over a source that gives a text with one: what is found of it, for the policies of these
/// names.
pub fn check_reply<S: Source>(alloc: Global, left: &str, right: &str, source: &mut S) -> Reply
    ensures { IsMeantBy (IsCheckAnswer left.now right.now)
        (use_of S.left S.faults source.old source.new) (answer_in result) }
{
    judge_text(alloc, &NamedPair { left, right }, source)
}

/// What is found of a certificate over a program, whose policies are dropped once both are written out.
fn answer_to_certificate(
    alloc: Global,
    left: &str,
    right: &str,
    program: Program,
    certificate: &Certificate,
) -> Result<CommandAnswer, AllocError>
    requires is { IsProgram program.fields program.topo program.lets }
    requires predicates { HasPredicates (certificate_value certificate.now) }
    ensures { IfOk result (λ s.
        TellsNoFault (λ o. ToChecked (program_by program) left.now right.now
        (certificate_value certificate.now) o) (outcome_of s)) }
{
    // This is a law: policies with a certificate give the same histories.
    a_certificate_shows_equality();
    match check_owned(alloc, program, left, right, certificate) {
        Ok(Verdict::Valid) => Ok(CommandAnswer::Done(Vec::from_slice(alloc, b"valid\n")?)),
        Ok(Verdict::Invalid { row, part }) => {
            Ok(CommandAnswer::Differs(invalid_message(alloc, row, part)?))
        }
        Err(CheckError::NoPolicy) => Ok(CommandAnswer::Refused(no_policy_message(alloc)?)),
        Err(CheckError::NoMemory) => Err(AllocError),
    }
}
