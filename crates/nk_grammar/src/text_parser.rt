//! A program's text, read token by token.
ghost use Rattle.std.specs.Prelude.{◌≡◌, ◌++◌, ◌∷◌, ◌≤◌, [], List, None, Ok, All, IfOk, IsOk, OnErr, OnOk, false, map, true};
ghost use Rattle.nk_lex.specs.declared.token.Token.{Token};
ghost use Rattle.nk_lex.specs.Lex.{largest};
ghost use Rattle.nk_grammar.specs.File.{Declaration, IsWritten, declaration_of};
ghost use Rattle.nk_grammar.specs.FileMachine.{ParseReturns, file_of};
ghost use Rattle.nk_grammar.specs.FileReader.{declaration_done};
ghost use Rattle.nk_grammar.specs.TextProgress.{IsTextStopped, IsTextRead, Stopped, rest_by};
ghost use Rattle.nk_grammar.specs.TextParser.{TakesTextOn, TakesToken, TakesTokenInside, progress_in};

use crate::decl::{Decl, File, GrammarError};
use crate::text::Reader;
use nk_field::List;
use nk_lex::Token;
use std::alloc::{AllocError, Global};
use std::marker::Model;

/// What is known of the tokens so far.
#[derive(Drop)]
pub enum KnownText {
    /// They have no fault.
    Sound(Reader),
    /// This is their first fault.
    Stopped(GrammarError),
}

/// Reads a program's text, token by token. Each declaration is handed out by the token that completes it, and none is kept. After a
/// fault of the grammar nothing but the fault is kept.
pub struct TextParser {
    known: KnownText,
    line: u64,
}

impl Drop for TextParser {
    fn drop(self) {
        let Self { known: _, line: _ } = self;
    }
}

impl Model for TextParser {
    ghost use Rattle.nk_grammar.specs.TextProgress.{TextProgress};
    ghost use Rattle.nk_grammar.specs.TextParser.{progress_in};

    ghost Value = { TextProgress };

    ghost use Rattle.nk_grammar.specs.CodedTree.{coded_tree, coded_trees};
    ghost use Rattle.std.specs.Coded.{codes};

    ghost coded = { Prim.hlevel (codes, coded_tree, coded_trees) };

    ghost view = { λ r. progress_in r.known r.line };
}

impl KnownText {
    /// One more token, and what it completes. After a fault nothing is read.
    fn take(&mut self, alloc: Global, token: &Token) -> Result<Option<Decl>, GrammarError>
        ensures { TakesToken self.old self.new token.now result }
    {
        match self {
            KnownText::Sound(reader) => reader.take(alloc, token),
            KnownText::Stopped(_) => Ok(None),
        }
    }

    /// One more token inside a policy, if it goes on with it. After a fault nothing is read.
    fn take_inside(&mut self, alloc: Global, token: &Token) -> Result<bool, GrammarError>
        ensures { TakesTokenInside self.old self.new token.now result }
    {
        match self {
            KnownText::Sound(reader) => reader.take_inside(alloc, token),
            KnownText::Stopped(_) => Ok(false),
        }
    }

    /// A fault takes the place of what was known.
    fn stop(&mut self, error: GrammarError)
        ensures { self.new ≡ KnownText.Stopped error }
    {
        *self = KnownText::Stopped(error);
    }
}

impl TextParser {
    /// A reader before the first token. It takes no memory.
    pub fn new(alloc: Global) -> TextParser
        ensures { IsTextRead [] [] result }
    {
        TextParser {
            known: KnownText::Sound(Reader::new(alloc)),
            line: 1,
        }
    }

    /// A fault is kept; where memory ran out nothing changes.
    #[inline(never)]
    fn fault(&mut self, error: GrammarError) -> Result<(), AllocError>
        ensures ok { OnOk result
            ((self.new ≡ Stopped error) × (error ≡ GrammarError.NoMemory → ⊥)) }
        ensures err { OnErr result ((error ≡ GrammarError.NoMemory) × (self.new ≡ self.old)) }
    {
        match error {
            GrammarError::Unexpected { line } => {
                self.known.stop(GrammarError::Unexpected { line });
                Ok(())
            }
            GrammarError::TooDeep { line } => {
                self.known.stop(GrammarError::TooDeep { line });
                Ok(())
            }
            GrammarError::NoMemory => Err(AllocError),
        }
    }

    /// One more token, and what it completes. It stands apart from what policies take, of which most of a text is made.
    #[tactic(auto, using(crate::proofs::TextReading::takes_on, crate::proofs::TextReading::takes_fault, crate::proofs::TextReading::takes_nothing, crate::proofs::TextReading::takes_no_memory, crate::proofs::TextReading::no_fault_after, crate::proofs::TextReading::stops_empty))]
    #[inline(never)]
    fn put_other(&mut self, alloc: Global, token: &Token) -> Result<Option<Decl>, AllocError>
        ensures taken { IfOk result
            (λ o. TakesTextOn self.old token.now self.new (declaration_done o)) }
        ensures fault { IfOk result (λ o. IsTextStopped self.new → o ≡ None) }
        ensures stopped { IsTextStopped self.old → (result ≡ Ok None) × (self.new ≡ self.old) }
        ensures err { OnErr result (self.new ≡ self.old) }
    {
        match self.known.take(alloc, token) {
            Ok(done) => {
                self.line = token.line;
                Ok(done)
            }
            Err(error) => match self.fault(error) {
                Ok(()) => Ok(None),
                Err(error) => Err(error),
            },
        }
    }

    /// One more token inside a policy, if it goes on with it, or the first fault; else nothing changes.
    #[tactic(auto, using(crate::proofs::TextReading::takes_inside, crate::proofs::TextReading::takes_fault, crate::proofs::TextReading::takes_nothing, crate::proofs::TextReading::takes_no_memory, crate::proofs::TextReading::no_fault_after))]
    fn put_inside(&mut self, alloc: Global, token: &Token) -> Result<bool, AllocError>
        ensures taken { IfOk result
            (λ taken. taken ≡ true → TakesTextOn self.old token.now self.new []) }
        ensures others { IfOk result (λ taken. taken ≡ false → self.new ≡ self.old) }
        ensures stopped { IsTextStopped self.old → IsOk result × (self.new ≡ self.old) }
        ensures err { OnErr result (self.new ≡ self.old) }
    {
        match self.known.take_inside(alloc, token) {
            Ok(true) => {
                self.line = token.line;
                Ok(true)
            }
            Ok(false) => Ok(false),
            Err(error) => match self.fault(error) {
                Ok(()) => Ok(true),
                Err(error) => Err(error),
            },
        }
    }

    /// One more token, and what it completes.
    fn put(&mut self, alloc: Global, token: &Token) -> Result<Option<Decl>, AllocError>
        ensures taken { IfOk result
            (λ o. TakesTextOn self.old token.now self.new (declaration_done o)) }
        ensures fault { IfOk result (λ o. IsTextStopped self.new → o ≡ None) }
        ensures stopped { IsTextStopped self.old → (result ≡ Ok None) × (self.new ≡ self.old) }
        ensures err { OnErr result (self.new ≡ self.old) }
    {
        match self.put_inside(alloc, token) {
            Ok(true) => Ok(None),
            Ok(false) => self.put_other(alloc, token),
            Err(error) => Err(error),
        }
    }

    /// Reads one more token inside a policy, and says whether it was taken; it completes nothing then. Else nothing changed, and `take`
    /// reads the token. A fault of the grammar is taken and kept, and after it nothing changes. The only error is that memory ran out, and then
    /// nothing changed.
    pub fn take_inside(&mut self, alloc: Global, token: &Token) -> Result<bool, AllocError>
        ensures taken { (ts : List Token) (ds : List Declaration) → IsTextRead ts ds self.old
            → IfOk result (λ taken. taken ≡ true
            → IsTextRead (ts ++ token.now ∷ []) ds self.new) }
        ensures others { IfOk result (λ taken. taken ≡ false → self.new ≡ self.old) }
        ensures stopped { IsTextStopped self.old → IsOk result × (self.new ≡ self.old) }
        ensures err { OnErr result (self.new ≡ self.old) }
    {
        self.put_inside(alloc, token)
    }

    /// Reads one more token, and hands out the declaration that it completes. A fault of the grammar is no error here: it is kept, and
    /// `end` answers it.
    ///
    /// A field, a tag, a link or a virtual link is completed by its last token, a switch, a `let` or a fabric by the token after it,
    /// and the last of these by `end`. `AllocError` says that memory ran out, and then nothing changed, so the token can be taken
    /// again. Once the tokens have a fault, nothing is completed, nothing changes any more and no memory is taken.
    pub fn take(&mut self, alloc: Global, token: &Token) -> Result<Option<Decl>, AllocError>
        ensures tokens { (ts : List Token) (ds : List Declaration) → IsTextRead ts ds self.old
            → IfOk result (λ o. IsTextRead (ts ++ token.now ∷ [])
            (ds ++ declaration_done o) self.new) }
        ensures fault { IfOk result (λ o. IsTextStopped self.new → o ≡ None) }
        ensures stopped { IsTextStopped self.old → (result ≡ Ok None) × (self.new ≡ self.old) }
        ensures err { OnErr result (self.new ≡ self.old) }
    {
        self.put(alloc, token)
    }

    /// What the end of the text completes.
    fn last(self, alloc: Global) -> Result<Option<Decl>, GrammarError>
        ensures { ParseReturns declaration_done result (rest_by self [] []) }
    {
        let TextParser { known, line } = self;
        match known {
            KnownText::Sound(reader) => {
                let mut reader = reader;
                reader.end(alloc, line)
            }
            KnownText::Stopped(error) => Err(error),
        }
    }

    /// The declaration that the end of the text completes, or the first fault of the tokens that were taken, as `file` says. It spends
    /// the reader, refused or not.
    pub fn end(self, alloc: Global) -> Result<Option<Decl>, GrammarError>
        ensures read { (ts : List Token) (ds : List Declaration) → IsTextRead ts ds self
            → ParseReturns (λ o. ds ++ declaration_done o) result (file_of ts) }
        // From the tokens of a text come numbers of a text.
        ensures written { (ts : List Token) (ds : List Declaration) → IsTextRead ts ds self
            → All (λ t. t.value ≤ largest) ts
            → IfOk result (λ o. All IsWritten (ds ++ declaration_done o)) }
    {
        self.last(alloc)
    }
}

/// Puts a declaration that is done after the others. The only error is that memory ran out.
fn push_declaration(decls: &mut Vec<Decl>, done: Option<Decl>) -> Result<(), AllocError>
    ensures { OnOk result (map declaration_of decls.new.items
        ≡ map declaration_of decls.old.items ++ declaration_done done) }
{
    match done {
        Some(decl) => {
            decls.push(decl)?;
            Ok(())
        }
        None => Ok(()),
    }
}

/// Reads the tokens of a text, and puts the declarations that they complete into a list.
fn read_all(
    alloc: Global,
    tokens: &[Token],
    reader: &mut TextParser,
    decls: &mut Vec<Decl>,
) -> Result<(), AllocError>
    requires first { IsTextRead [] (map declaration_of decls.old.items) reader.old }
    ensures { OnOk result (IsTextRead tokens.now (map declaration_of decls.new.items) reader.new) }
{
    for token in tokens {
        let done = reader.take(alloc, token)?;
        push_declaration(decls, done)?;
    }
    Ok(())
}

/// The declarations of a text's tokens, or the first fault.
fn read_file(alloc: Global, tokens: &[Token]) -> Result<File, GrammarError>
    ensures decls { ParseReturns (λ f. map declaration_of f.decls) result (file_of tokens.now) }
    ensures rows { IfOk result (λ f. f.rows ≡ []) }
{
    let mut reader = TextParser::new(alloc);
    let mut decls = Vec::new(alloc);
    read_all(alloc, tokens, &mut reader, &mut decls)?;
    let done = reader.end(alloc)?;
    push_declaration(&mut decls, done)?;
    Ok(File {
        decls: List::from_vec(decls),
        rows: List::from_vec(Vec::new(alloc)),
    })
}

/// The declarations of a text's tokens, in order; there are no rows.
///
/// The first fault is answered. `Unexpected` comes at the first token with which no text can continue, or, where
/// the tokens end too early, with the line of the last token, 1 without tokens. `TooDeep` comes at the first
/// token that opens a 257th parenthesis or `~`, where a text could continue with it.
#[tactic(auto, using(crate::proofs::Written::written_of))]
pub fn file(alloc: Global, tokens: &[Token]) -> Result<File, GrammarError>
    ensures read { ParseReturns (λ f. map declaration_of f.decls) result (file_of tokens.now) }
    // From the tokens of a text come numbers of a text.
    ensures written { All (λ t. t.value ≤ largest) tokens.now
        → IfOk result (λ f. All IsWritten (map declaration_of f.decls)) }
    ensures rows { IfOk result (λ f. f.rows ≡ []) }
{
    match read_file(alloc, tokens) {
        Ok(file) => Ok(file),
        Err(error) => Err(error),
    }
}
