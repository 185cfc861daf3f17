//! Answers to a text with a certificate.
ghost use Rattle.std.specs.Prelude.{◌≤◌, ℕ, All, IfOk, List};
ghost use Rattle.nk_lex.specs.declared.token.Token.{Token};
ghost use Rattle.nk_lex.specs.Lex.{largest, tokens_of};
ghost use Rattle.nk_certtext.specs.Progress.{IsTaken};
ghost use Rattle.nk_verify_commands.specs.CertifiedText.{TellsNoFault, TellsText, ToCertified, ToCertifiedTokens};
ghost use Rattle.nk_reply.specs.Meant.{IsMeantBy};
ghost use Rattle.nk_input.specs.Pieces.{IsLexedAs};
ghost use Rattle.nk_reply.specs.Reply.{answer_in, outcome_of, IsReplyOf};
ghost use Rattle.nk_reply.specs.Use.{use_of};

use nk_cert::Certificate;
use nk_certtext::{CertReader, TextError};
use nk_input::{Lexed, TokenReader, read_pieces, text_fault};
use nk_io::Source;
use nk_lex::{Token, values_are_small};
use nk_names::Program;
use nk_reply::{CommandAnswer, Reply};
use std::alloc::{AllocError, Global};

/// What is told of a program and a certificate.
pub(crate) trait Judge {
    ghost use Rattle.nk_names.specs.ProgramOf.{program_by};
    ghost use Rattle.nk_names.specs.ProgramOf as program;
    ghost use Rattle.nk_names.specs.ProgramValue.{IsProgram};
    ghost use Rattle.nk_cert.specs.Certificates.{CertificateValue};
    ghost use Rattle.nk_cert.specs.Values.{certificate_value};
    ghost use Rattle.nk_cert.specs.Verdicts.{HasPredicates};
    ghost use Rattle.nk_reply.specs.Outcome.{Outcome};

    ghost tells: { Self → program.DeclaredProgram → CertificateValue → Outcome → Type 0 };

    fn judge(
        &self,
        alloc: Global,
        program: Program,
        certificate: &Certificate,
    ) -> Result<CommandAnswer, AllocError>
        requires is { IsProgram program.fields program.topo program.lets }
        requires predicates { HasPredicates (certificate_value certificate.now) }
        ensures { IfOk result (λ s.
            TellsNoFault (tells self.now (program_by program) (certificate_value certificate.now))
            (outcome_of s)) };
}

/// A text with a certificate whose tokens are taken one by one.
#[derive(Drop)]
struct CertifiedTokens {
    reader: CertReader,
}

impl TokenReader for CertifiedTokens {
    ghost use Rattle.nk_certtext.specs.Progress.{IsTaken};

    ghost has_taken = { λ text tokens. IsTaken tokens text.reader };

    fn take(&mut self, alloc: Global, token: &Token) -> Result<(), AllocError> {
        self.reader.take(alloc, token)
    }
}

/// What judging a certificate means to say, over a source that gives a text with one, whose tokens are taken as they come.
pub(crate) fn judge_text<S: Source, J: Judge>(alloc: Global, how: &J, source: &mut S) -> Reply
    ensures { IsMeantBy (ToCertified (J.tells how.now))
        (use_of S.left S.faults source.old source.new) (answer_in result) }
{
    let mut tokens = match CertReader::new(alloc) {
        Ok(reader) => CertifiedTokens { reader },
        Err(_) => return Reply::NoMemory,
    };
    match read_pieces(alloc, source, &mut tokens) {
        Ok(lexed) => reply_to_text(alloc, how, lexed, tokens.reader),
        Err(error) => Reply::unread(error),
    }
}

/// What judging a certificate means to say, over a text that has a lexical fault, or all of whose tokens the reader has taken.
fn reply_to_text<J: Judge>(alloc: Global, how: &J, lexed: Lexed, reader: CertReader) -> Reply
    requires cut { (bytes : List ℕ)
        × IsLexedAs (λ tokens. IsTaken tokens reader) lexed (tokens_of bytes) }
    ensures { (bytes : List ℕ) → IsLexedAs (λ tokens. IsTaken tokens reader) lexed (tokens_of bytes)
        → IsReplyOf (ToCertified (J.tells how.now) bytes) result }
{
    match answer_to_text(alloc, how, lexed, reader) {
        Ok(said) => Reply::CommandAnswer(said),
        Err(_) => Reply::NoMemory,
    }
}

/// The answer to it, where memory doesn't run out.
fn answer_to_text<J: Judge>(
    alloc: Global,
    how: &J,
    lexed: Lexed,
    reader: CertReader,
) -> Result<CommandAnswer, AllocError>
    requires cut { (bytes : List ℕ)
        × IsLexedAs (λ tokens. IsTaken tokens reader) lexed (tokens_of bytes) }
    ensures { (bytes : List ℕ) → IsLexedAs (λ tokens. IsTaken tokens reader) lexed (tokens_of bytes)
        → IfOk result (λ s. ToCertified (J.tells how.now) bytes (outcome_of s)) }
{
    // This is a law: the numbers of a text are small.
    values_are_small();
    match lexed {
        Lexed::BadByte { line } => text_fault(alloc, line, "bad byte"),
        Lexed::NumberTooLarge { line } => text_fault(alloc, line, "number too large"),
        Lexed::Whole => answer_to_tokens(alloc, how, reader),
    }
}

/// What judging a certificate answers, where all tokens of a text were taken.
fn answer_to_tokens<J: Judge>(
    alloc: Global,
    how: &J,
    reader: CertReader,
) -> Result<CommandAnswer, AllocError>
    requires small { (tokens : List Token) × IsTaken tokens reader
        × All (λ t. t.value ≤ largest) tokens }
    ensures { (tokens : List Token) → IsTaken tokens reader
        → IfOk result (λ s. ToCertifiedTokens (J.tells how.now) tokens (outcome_of s)) }
{
    match reader.end(alloc) {
        Ok((program, certificate)) => how.judge(alloc, program, &certificate),
        Err(error) => answer_to_fault(alloc, error),
    }
}

/// The line of the text's first fault.
fn answer_to_fault(alloc: Global, error: TextError) -> Result<CommandAnswer, AllocError>
    ensures { IfOk result (λ s. TellsText error (outcome_of s)) }
{
    match error {
        TextError::Unexpected { line } => text_fault(alloc, line, "unexpected"),
        TextError::TooDeep { line } => text_fault(alloc, line, "too deep"),
        TextError::Fault { kind, line } => text_fault(alloc, line, kind.message()),
        TextError::CertFault { line } => text_fault(alloc, line, "certificate fault"),
        TextError::NoMemory => Err(AllocError),
    }
}
