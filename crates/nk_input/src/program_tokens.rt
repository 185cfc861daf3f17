//! The program of a text whose tokens are taken one by one.
ghost use Rattle.std.specs.Prelude.{◌≡◌, ◌++◌, ◌∷◌, [], List, IfOk, OnOk};
ghost use Rattle.nk_lex.specs.declared.token.Token.{Token};
ghost use Rattle.nk_grammar.specs.File.{Declaration};
ghost use Rattle.nk_grammar.specs.FileReader.{declaration_done};
ghost use Rattle.nk_names.specs.Declaring.{IsDeclared};
ghost use Rattle.nk_input.specs.ProgramTokens.{AreTaken};

use nk_grammar::{Decl, TextParser};
use nk_lex::Token;
use nk_names::ProgramReader;
use std::alloc::{AllocError, Global};

/// What the tokens of a program's text say so far. Each declaration goes to the program with the token that completes it, and neither
/// tokens nor declarations are kept.
pub struct ProgramTokens {
    pub(crate) grammar: TextParser,
    pub(crate) program: ProgramReader,
}

impl ProgramTokens {
    /// The two readers.
    pub(crate) fn into_readers(self) -> (TextParser, ProgramReader)
        ensures grammar { result.0 ≡ self.grammar }
        ensures program { result.1 ≡ self.program }
    {
        let Self { grammar, program } = self;
        (grammar, program)
    }
}

impl Drop for ProgramTokens {
    fn drop(self) {
        let Self {
            grammar: _,
            program: _,
        } = self;
    }
}

/// Declares what a token, or the end of the text, completes, if it does.
pub(crate) fn declare_done(
    alloc: Global,
    program: &mut ProgramReader,
    done: Option<Decl>,
) -> Result<(), AllocError>
    ensures { (ds : List Declaration) → IsDeclared ds program.old
        → OnOk result (IsDeclared (ds ++ declaration_done done) program.new) }
{
    match done {
        Some(decl) => program.declare(alloc, &decl),
        None => Ok(()),
    }
}

impl ProgramTokens {
    /// Before the first token.
    pub(crate) fn new(alloc: Global) -> Result<ProgramTokens, AllocError>
        ensures { IfOk result (AreTaken []) }
    {
        Ok(ProgramTokens {
            grammar: TextParser::new(alloc),
            program: ProgramReader::new(alloc)?,
        })
    }

    /// One more token that isn't inside a policy. This is a function of its own, since most tokens are inside a policy.
    #[inline(never)]
    fn take_other(&mut self, alloc: Global, token: &Token) -> Result<(), AllocError>
        ensures { (ts : List Token) → AreTaken ts self.old
            → OnOk result (AreTaken (ts ++ token.now ∷ []) self.new) }
    {
        let done = self.grammar.take(alloc, token)?;
        match done {
            Some(decl) => self.program.declare(alloc, &decl),
            None => Ok(()),
        }
    }

    /// One more token. A fault of the tokens is no error here.
    pub(crate) fn take_token(&mut self, alloc: Global, token: &Token) -> Result<(), AllocError>
        ensures { (ts : List Token) → AreTaken ts self.old
            → OnOk result (AreTaken (ts ++ token.now ∷ []) self.new) }
    {
        let taken = self.grammar.take_inside(alloc, token)?;
        if taken {
            Ok(())
        } else {
            self.take_other(alloc, token)
        }
    }
}
