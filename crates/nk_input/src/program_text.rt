//! The program of a text, or the text's first fault.
ghost use Rattle.std.specs.Prelude.{◌++◌, ◌≤◌, All, IfOk, List};
ghost use Rattle.nk_lex.specs.declared.token.Token.{Token};
ghost use Rattle.nk_lex.specs.Lex.{largest};
ghost use Rattle.nk_grammar.specs.File.{Declaration, IsWritten};
ghost use Rattle.nk_grammar.specs.FileReader.{declaration_done};
ghost use Rattle.nk_names.specs.Declaring.{IsDeclared};
ghost use Rattle.nk_input.specs.Declarable.{SayDeclared, TokensSayDeclared};
ghost use Rattle.nk_input.specs.ProgramTokens.{AreTaken};
ghost use Rattle.nk_input.specs.ReadText.{IsFaultLine, IsGrammarFault, IsLexicalFault, IsReadOf, IsReadOfNames, IsReadOfTokens};

use crate::faults::fault_message;
use crate::pieces::{Lexed, take_text};
use crate::program_tokens::{ProgramTokens, declare_done};
use nk_grammar::{Decl, GrammarError};
use nk_lex::{LexError, values_are_small};
use nk_names::laws::{declared_fields_are_writable, declared_topologies_are_declarable};
use nk_names::{NamesError, Program, ProgramReader};
use std::alloc::{AllocError, Global};

/// What is read of a text.
#[derive(Drop)]
pub enum ReadText {
    /// The program that the text declares.
    Program(Program),
    /// The line that tells the text's first fault.
    Fault(Vec<u8>),
}

/// The program of a text, or the line that tells the text's first fault. The text goes with this call. The only error is that
/// memory ran out.
pub fn read_program(alloc: Global, bytes: Vec<u8>) -> Result<ReadText, AllocError>
    ensures { IfOk result (λ r. IsReadOf bytes.items r) }
{
    read_text(alloc, &bytes)
}

/// The program of these bytes, or the line that tells the text's first fault. The text's tokens are taken as they come, and
/// none is kept.
fn read_text(alloc: Global, bytes: &[u8]) -> Result<ReadText, AllocError>
    ensures { IfOk result (λ r. IsReadOf bytes.now r) }
{
    // These are laws: what any text declares, and that its numbers are small.
    declared_fields_are_writable();
    declared_topologies_are_declarable();
    values_are_small();
    let mut tokens = ProgramTokens::new(alloc)?;
    match take_text(alloc, bytes, &mut tokens)? {
        Lexed::Whole => read_tokens(alloc, tokens),
        Lexed::BadByte { line } => lexical_fault(alloc, LexError::BadByte { line }),
        Lexed::NumberTooLarge { line } => lexical_fault(alloc, LexError::NumberTooLarge { line }),
    }
}

/// The program of a text whose tokens were all taken, or the line that tells the text's first fault.
fn read_tokens(alloc: Global, tokens: ProgramTokens) -> Result<ReadText, AllocError>
    requires small { (ts : List Token) × AreTaken ts tokens × All (λ t. t.value ≤ largest) ts }
    ensures { (ts : List Token) → AreTaken ts tokens → TokensSayDeclared ts
        → IfOk result (λ r. IsReadOfTokens ts r) }
{
    let (grammar, program) = tokens.into_readers();
    match grammar.end(alloc) {
        Ok(last) => read_last(alloc, program, last),
        Err(error) => grammar_fault(alloc, error),
    }
}

/// The program of a text, with the declaration that the end of the text completes, if it completes one, or the line that tells
/// the first fault.
fn read_last(
    alloc: Global,
    program: ProgramReader,
    last: Option<Decl>,
) -> Result<ReadText, AllocError>
    requires written { (ds : List Declaration) × IsDeclared ds program
        × All IsWritten (ds ++ declaration_done last) }
    ensures { (ds : List Declaration) → IsDeclared ds program
        → SayDeclared (ds ++ declaration_done last)
        → IfOk result (λ r. IsReadOfNames (ds ++ declaration_done last) r) }
{
    let mut program = program;
    declare_done(alloc, &mut program, last)?;
    read_declared(alloc, program)
}

/// The program of all declarations of a text, or the line that tells the first fault.
fn read_declared(alloc: Global, program: ProgramReader) -> Result<ReadText, AllocError>
    requires written { (ds : List Declaration) × IsDeclared ds program × All IsWritten ds }
    ensures { (ds : List Declaration) → IsDeclared ds program → SayDeclared ds
        → IfOk result (λ r. IsReadOfNames ds r) }
{
    match program.finish() {
        Ok(program) => Ok(ReadText::Program(program)),
        Err(NamesError::Fault { kind, line }) => fault(alloc, line, kind.message()),
        Err(NamesError::NoMemory) => Err(AllocError),
    }
}

/// The line of a lexical fault.
fn lexical_fault(alloc: Global, error: LexError) -> Result<ReadText, AllocError>
    ensures { IfOk result (IsLexicalFault error) }
{
    match error {
        LexError::BadByte { line } => fault(alloc, line, "bad byte"),
        LexError::NumberTooLarge { line } => fault(alloc, line, "number too large"),
        LexError::NoMemory => Err(AllocError),
    }
}

/// The line of a fault of the tokens.
fn grammar_fault(alloc: Global, error: GrammarError) -> Result<ReadText, AllocError>
    ensures { IfOk result (IsGrammarFault error) }
{
    match error {
        GrammarError::Unexpected { line } => fault(alloc, line, "unexpected"),
        GrammarError::TooDeep { line } => fault(alloc, line, "too deep"),
        GrammarError::NoMemory => Err(AllocError),
    }
}

/// The line of a text's fault.
fn fault(alloc: Global, line: u64, message: &str) -> Result<ReadText, AllocError>
    ensures { IfOk result (λ r. IsFaultLine line message.now r) }
{
    Ok(ReadText::Fault(fault_message(alloc, line, message)?))
}
