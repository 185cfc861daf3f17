//! A text with a certificate, read token by token.
ghost use Rattle.std.specs.Prelude.{◌≡◌, ◌++◌, ◌∷◌, ◌≤◌, [], List, None, Ok, All, IfOk, OnErr, OnOk, map};
ghost use Rattle.nk_lex.specs.declared.token.Token.{Token};
ghost use Rattle.nk_lex.specs.Lex.{largest};
ghost use Rattle.nk_grammar.specs.Answer.{terminals};
ghost use Rattle.nk_grammar.specs.Certified.{CertifiedGoesOn, IsWrittenRow, Row, certified, row_value};
ghost use Rattle.nk_grammar.specs.CertifiedMachine.{certified_of};
ghost use Rattle.nk_grammar.specs.CertifiedProgress.{
  BeginsWithStart,
  IsRead,
  IsStopped,
  IsWrittenPart,
  Stopped,
  certified_so_far,
  declarations_by,
  is_stopped,
  rows_by,
  parsed_prefix,
  prefix_after,
};
ghost use Rattle.nk_grammar.specs.CertificateParser.{TakesToken, TakesTokenInside, progress_of};
ghost use Rattle.nk_grammar.specs.File.{Declaration, IsWritten, declaration_of};
ghost use Rattle.nk_grammar.specs.FileMachine.{ParseReturns};

use crate::certified::SoundReader;
use crate::decl::{CertRow, Completed, Decl, File, GrammarError};
use nk_field::List;
use nk_lex::Token;
use std::alloc::{AllocError, Global};
use std::marker::Model;

/// What is known of the tokens so far.
#[derive(Drop)]
pub enum Known {
    /// They have no fault.
    Sound(SoundReader),
    /// This is their first fault.
    Stopped(GrammarError),
}

/// Reads a text and the certificate after it, token by token. Each declaration and each row is handed out by the token that completes
/// it, and none is kept. After a fault of the grammar nothing but the fault is kept.
pub struct CertificateParser {
    known: Known,
    line: u64,
}

impl Drop for CertificateParser {
    fn drop(self) {
        let Self { known: _, line: _ } = self;
    }
}

impl Model for CertificateParser {
    ghost use Rattle.nk_grammar.specs.CertifiedProgress.{CertifiedProgress};
    ghost use Rattle.nk_grammar.specs.CertificateParser.{progress_of};

    ghost Value = { CertifiedProgress };

    ghost use Rattle.nk_grammar.specs.CodedTree.{coded_tree, coded_trees};
    ghost use Rattle.std.specs.Coded.{codes};

    ghost coded = { Prim.hlevel (codes, coded_tree, coded_trees) };

    ghost view = { λ r. progress_of r.known r.line };
}

impl Known {
    /// One more token, and what it completes. After a fault nothing is read.
    fn take(&mut self, alloc: Global, token: &Token) -> Result<Option<Completed>, GrammarError>
        ensures { TakesToken self.old self.new token.now result }
    {
        match self {
            Known::Sound(reader) => reader.take(alloc, token),
            Known::Stopped(_) => Ok(None),
        }
    }

    /// One more token inside a policy, if it goes on with it. After a fault nothing is read.
    fn take_inside(&mut self, alloc: Global, token: &Token) -> Result<bool, GrammarError>
        ensures { TakesTokenInside self.old self.new token.now result }
    {
        match self {
            Known::Sound(reader) => reader.take_inside(alloc, token),
            Known::Stopped(_) => Ok(false),
        }
    }

    /// A fault takes the place of what was known.
    fn stop(&mut self, error: GrammarError)
        ensures { self.new ≡ Known.Stopped error }
    {
        *self = Known::Stopped(error);
    }
}

impl CertificateParser {
    /// A reader before the first token. It takes no memory.
    pub fn new(alloc: Global) -> CertificateParser
        ensures { IsRead [] [] [] result }
    {
        CertificateParser {
            known: Known::Sound(SoundReader::new(alloc)),
            line: 1,
        }
    }

    /// Whether the tokens so far have a fault.
    pub fn is_stopped(&self) -> bool
        ensures { result ≡ is_stopped self.now }
    {
        match &self.known {
            Known::Sound(_) => false,
            Known::Stopped(_) => true,
        }
    }

    /// A fault is kept, and nothing is completed; where memory ran out nothing changes.
    #[inline(never)]
    fn fault(&mut self, error: GrammarError) -> Result<Option<Completed>, AllocError>
        ensures ok { IfOk result
            (λ o. (o ≡ None) × (self.new ≡ Stopped error) × (error ≡ GrammarError.NoMemory → ⊥)) }
        ensures err { OnErr result ((error ≡ GrammarError.NoMemory) × (self.new ≡ self.old)) }
    {
        match error {
            GrammarError::Unexpected { line } => {
                self.known.stop(GrammarError::Unexpected { line });
                Ok(None)
            }
            GrammarError::TooDeep { line } => {
                self.known.stop(GrammarError::TooDeep { line });
                Ok(None)
            }
            GrammarError::NoMemory => Err(AllocError),
        }
    }

    /// One more token, and what it completes. It stands apart from what policies take, of which most of a text is made.
    #[tactic(auto, using(crate::proofs::Progress::takes_on, crate::proofs::Progress::takes_fault, crate::proofs::Progress::takes_nothing, crate::proofs::Progress::takes_no_memory, crate::proofs::Progress::no_fault_after))]
    #[inline(never)]
    fn put_other(&mut self, alloc: Global, token: &Token) -> Result<Option<Completed>, AllocError>
        ensures taken { IfOk result (λ o. prefix_after (parsed_prefix self.old [] []) token.now
            ≡ parsed_prefix self.new (declarations_by o) (rows_by o)) }
        ensures stopped { IsStopped self.old → (result ≡ Ok None) × (self.new ≡ self.old) }
        ensures err { OnErr result (self.new ≡ self.old) }
    {
        match self.known.take(alloc, token) {
            Ok(done) => {
                self.line = token.line;
                Ok(done)
            }
            Err(error) => self.fault(error),
        }
    }

    /// One more token, and what it completes.
    #[tactic(auto, using(crate::proofs::Progress::takes_on, crate::proofs::Progress::takes_fault, crate::proofs::Progress::takes_nothing, crate::proofs::Progress::takes_no_memory, crate::proofs::Progress::no_fault_after))]
    fn put(&mut self, alloc: Global, token: &Token) -> Result<Option<Completed>, AllocError>
        ensures taken { IfOk result (λ o. prefix_after (parsed_prefix self.old [] []) token.now
            ≡ parsed_prefix self.new (declarations_by o) (rows_by o)) }
        ensures stopped { IsStopped self.old → (result ≡ Ok None) × (self.new ≡ self.old) }
        ensures err { OnErr result (self.new ≡ self.old) }
    {
        match self.known.take_inside(alloc, token) {
            Ok(true) => {
                self.line = token.line;
                Ok(None)
            }
            Ok(false) => self.put_other(alloc, token),
            Err(error) => self.fault(error),
        }
    }

    /// Reads one more token, and hands out the declaration or row that it completes. A fault of the grammar is no error here: it is
    /// kept, and `end` answers it.
    ///
    /// A field, a tag, a link or a virtual link is completed by its last token, a switch, a `let` or a fabric by the token after it, and
    /// a row by the word `row` after it; the last row is what `end` answers. `AllocError` says that memory ran out, and then nothing
    /// changed, so the token can be taken again. Once the tokens have a fault, nothing is completed, nothing changes any more and no
    /// memory is taken.
    pub fn take(&mut self, alloc: Global, token: &Token) -> Result<Option<Completed>, AllocError>
        ensures tokens { (ts : List Token) (ds : List Declaration) (rs : List Row)
            → IsRead ts ds rs self.old
            → IfOk result (λ o. IsRead (ts ++ token.now ∷ []) (ds ++ declarations_by o)
            (rs ++ rows_by o) self.new) }
        // From the tokens of a text come numbers of a text.
        ensures written { (ts : List Token) (ds : List Declaration) (rs : List Row)
            → IsRead ts ds rs self.old
            → All (λ t. t.value ≤ largest) (ts ++ token.now ∷ []) → IfOk result IsWrittenPart }
        ensures start { (ts : List Token) (ds : List Declaration) (rs : List Row)
            → IsRead ts ds rs self.old
            → IfOk result (λ o. BeginsWithStart (rs ++ rows_by o)) }
        ensures unmended { (ts : List Token) (ds : List Declaration) (rs : List Row)
            → IsRead ts ds rs self.old
            → (CertifiedGoesOn (terminals ts) → ⊥) → (result ≡ Ok None) × (self.new ≡ self.old) }
        ensures stopped { IsStopped self.old → (result ≡ Ok None) × (self.new ≡ self.old) }
        ensures err { OnErr result (self.new ≡ self.old) }
    {
        self.put(alloc, token)
    }

    /// The last row, where the tokens so far are a text with a certificate.
    fn last_row(self, alloc: Global) -> Result<CertRow, GrammarError>
        ensures { ParseReturns (λ row. certified [] (row_value row ∷ [])) result
            (certified_so_far self [] []) }
    {
        let CertificateParser { known, line } = self;
        match known {
            Known::Sound(reader) => {
                let mut reader = reader;
                reader.end(alloc, line)
            }
            Known::Stopped(error) => Err(error),
        }
    }

    /// The last row of the tokens that were taken, or their first fault, as `file_with_certificate` says. It spends the reader, refused
    /// or not.
    pub fn end(self, alloc: Global) -> Result<CertRow, GrammarError>
        ensures read { (ts : List Token) (ds : List Declaration) (rs : List Row)
            → IsRead ts ds rs self
            → ParseReturns (λ row. certified ds (rs ++ row_value row ∷ [])) result
            (certified_of ts) }
        ensures written { (ts : List Token) (ds : List Declaration) (rs : List Row)
            → IsRead ts ds rs self
            → All (λ t. t.value ≤ largest) ts → IfOk result (λ row. IsWrittenRow (row_value row)) }
        ensures start { (ts : List Token) (ds : List Declaration) (rs : List Row)
            → IsRead ts ds rs self
            → IfOk result (λ row. BeginsWithStart (rs ++ row_value row ∷ [])) }
    {
        self.last_row(alloc)
    }
}

/// Puts what a token completes after the others. The only error is that memory ran out.
fn push_completed(
    decls: &mut Vec<Decl>,
    rows: &mut Vec<CertRow>,
    done: Option<Completed>,
) -> Result<(), AllocError>
    ensures decls { OnOk result (map declaration_of decls.new.items
        ≡ map declaration_of decls.old.items ++ declarations_by done) }
    ensures rows { OnOk result
        (map row_value rows.new.items ≡ map row_value rows.old.items ++ rows_by done) }
{
    match done {
        Some(Completed::Declaration(decl)) => {
            decls.push(decl)?;
            Ok(())
        }
        Some(Completed::Row(row)) => {
            rows.push(row)?;
            Ok(())
        }
        None => Ok(()),
    }
}

/// Reads the tokens of a text with a certificate, and puts what they complete into two lists.
fn read_all(
    alloc: Global,
    tokens: &[Token],
    reader: &mut CertificateParser,
    decls: &mut Vec<Decl>,
    rows: &mut Vec<CertRow>,
) -> Result<(), AllocError>
    requires first { IsRead [] (map declaration_of decls.old.items)
        (map row_value rows.old.items) reader.old }
    ensures { OnOk result (IsRead tokens.now (map declaration_of decls.new.items)
        (map row_value rows.new.items) reader.new) }
{
    for token in tokens {
        let done = reader.take(alloc, token)?;
        push_completed(decls, rows, done)?;
    }
    Ok(())
}

/// The declarations of a text's tokens and the rows of its certificate, or the first fault.
fn read_certified(alloc: Global, tokens: &[Token]) -> Result<File, GrammarError>
    ensures { ParseReturns (λ f.
        certified (map declaration_of f.decls) (map row_value f.rows)) result
        (certified_of tokens.now) }
{
    let mut reader = CertificateParser::new(alloc);
    let mut decls = Vec::new(alloc);
    let mut rows = Vec::new(alloc);
    read_all(alloc, tokens, &mut reader, &mut decls, &mut rows)?;
    let row = reader.end(alloc)?;
    push_completed(&mut decls, &mut rows, Some(Completed::Row(row)))?;
    Ok(File {
        decls: List::from_vec(decls),
        rows: List::from_vec(rows),
    })
}

/// The declarations of a text's tokens and the rows of the certificate after them, the start row first.
///
/// The first fault is answered. `Unexpected` comes at the first token with which no text with a certificate
/// can continue, or, where the tokens end too early, with the line of the last token, 1 without tokens.
/// `TooDeep` comes at the first token that opens a 257th parenthesis or `~`, where a text could continue with
/// it.
#[tactic(auto, using(crate::proofs::WrittenRows::declarations_written, crate::proofs::WrittenRows::rows_written))]
pub fn file_with_certificate(alloc: Global, tokens: &[Token]) -> Result<File, GrammarError>
    ensures read { ParseReturns
        (λ f. certified (map declaration_of f.decls) (map row_value f.rows)) result
        (certified_of tokens.now) }
    // From the tokens of a text come numbers of a text.
    ensures written { All (λ t. t.value ≤ largest) tokens.now
        → IfOk result (λ f. All IsWritten (map declaration_of f.decls)) }
    ensures positions { All (λ t. t.value ≤ largest) tokens.now
        → IfOk result (λ f. All IsWrittenRow (map row_value f.rows)) }
{
    match read_certified(alloc, tokens) {
        Ok(file) => Ok(file),
        Err(error) => Err(error),
    }
}
