//! A text with a certificate read token by token.
ghost use Rattle.std.specs.Prelude.{◌≡◌, ◌++◌, ◌∷◌, ◌≤◌, [], All, Err, IfErr, IfOk, IsOk, List, None, OnErr, OnOk};
ghost use Rattle.nk_lex.specs.declared.token.Token.{Token};
ghost use Rattle.nk_lex.specs.Lex.{largest};
ghost use Rattle.nk_grammar.specs.Answer.{terminals};
ghost use Rattle.nk_grammar.specs.Certified.{CertifiedGoesOn, Row, row_value};
ghost use Rattle.nk_grammar.specs.File.{Declaration, IsWritten};
ghost use Rattle.nk_names.specs.Declaring.{IsDeclared};
ghost use Rattle.nk_names.specs.ProgramOf.{program_by};
ghost use Rattle.nk_cert.specs.Values.{certificate_value};
ghost use Rattle.nk_cert.specs.Verdicts.{HasPredicates};
ghost use Rattle.nk_certtext.specs.InMemory.{parts_in};
ghost use Rattle.nk_certtext.specs.Progress.{HasStopped, IsTaken, IsTakenOn, text_at_end, with_completed, with_next_part, with_row_part};
ghost use Rattle.nk_certtext.specs.Whole.{ReturnsText, grammar_fault, text_of_tokens};

use crate::error::TextError;
use crate::rows::RowsRead;
use nk_cert::Certificate;
use nk_grammar::{
    CertRow, CertificateParser, Completed, GrammarError,
    a_certified_reader_stops_at_the_first_fault, what_is_completed_is_written,
};
use nk_lex::Token;
use nk_names::{Program, ProgramReader};
use std::alloc::{AllocError, Global};
use std::marker::Model;

/// What is known of the declarations and rows that are complete.
struct Parts {
    program: ProgramReader,
    rows: RowsRead,
}

impl Drop for Parts {
    fn drop(self) {
        let Self {
            program: _,
            rows: _,
        } = self;
    }
}

impl Parts {
    /// One more row. Where memory ran out, nothing changed, here and below.
    fn put_row(&mut self, alloc: Global, row: &CertRow) -> Result<(), AllocError>
        ensures ok { OnOk result
            (parts_in self.new ≡ with_row_part (parts_in self.old) (row_value row.now)) }
        ensures kept { OnErr result (parts_in self.new ≡ parts_in self.old) }
    {
        let predicate = self.program.predicate(alloc, &row.pred, row.line);
        self.rows.add(alloc, row, predicate)
    }

    /// One more declaration or row.
    fn put(&mut self, alloc: Global, part: &Completed) -> Result<(), AllocError>
        ensures ok { OnOk result (parts_in self.new ≡ with_next_part (parts_in self.old) part.now) }
        ensures kept { OnErr result (parts_in self.new ≡ parts_in self.old) }
    {
        match part {
            Completed::Declaration(decl) => self.program.declare(alloc, decl),
            Completed::Row(row) => self.put_row(alloc, row),
        }
    }

    /// What a token completes, if it does.
    fn put_completed(&mut self, alloc: Global, part: &Option<Completed>) -> Result<(), AllocError>
        ensures ok { OnOk result (parts_in self.new ≡ with_completed (parts_in self.old) part.now) }
        ensures kept { OnErr result (parts_in self.new ≡ parts_in self.old) }
    {
        match part {
            Some(part) => self.put(alloc, part),
            None => Ok(()),
        }
    }

    /// What an earlier token completed, where it is still to be put in; it isn't any more then.
    fn put_pending(
        &mut self,
        alloc: Global,
        pending: &mut Option<Completed>,
    ) -> Result<(), AllocError>
        ensures ok { OnOk result
            (parts_in self.new ≡ with_completed (parts_in self.old) pending.old) }
        ensures put { OnOk result (pending.new ≡ None) }
        ensures kept { OnErr result
            ((parts_in self.new ≡ parts_in self.old) × (pending.new ≡ pending.old)) }
    {
        let Some(part) = &*pending else {
            return Ok(());
        };
        self.put(alloc, part)?;
        *pending = None;
        Ok(())
    }

    /// The last row, after what the last token completed. It is refused with the grammar's fault, where the tokens have one.
    fn put_last(
        &mut self,
        alloc: Global,
        pending: &Option<Completed>,
        last: &Result<CertRow, GrammarError>,
    ) -> Result<(), TextError>
        ensures refused { IfErr last.now (λ fault. result ≡ Err (grammar_fault fault)) }
        ensures put { IfOk last.now (λ row. OnOk result (parts_in self.new
            ≡ with_row_part (with_completed (parts_in self.old) pending.now) (row_value row))) }
        ensures memory { IfOk last.now (λ row. IfErr result (λ e. e ≡ TextError.NoMemory)) }
    {
        match last {
            Ok(row) => {
                self.put_completed(alloc, pending)?;
                self.put_row(alloc, row)?;
                Ok(())
            }
            Err(fault) => Err(TextError::from(*fault)),
        }
    }

    /// The program and the certificate, or their first fault.
    fn finish(self, alloc: Global) -> Result<(Program, Certificate), TextError>
        requires written { (ds : List Declaration) × IsDeclared ds self.program × All IsWritten ds }
        ensures { ReturnsText (λ r. (program_by r.0, certificate_value r.1)) result
            (text_at_end (parts_in self)) }
    {
        let Parts { program, rows } = self;
        let program = program.finish()?;
        let certificate = rows.finish(alloc)?;
        Ok((program, certificate))
    }
}

/// What a token completed is still to be put in, if it completed something.
fn keep_part(pending: &mut Option<Completed>, part: Option<Completed>)
    requires { pending.old ≡ None }
    ensures { pending.new ≡ part }
{
    if let Some(part) = part {
        *pending = Some(part);
    }
}

/// A text with a certificate read token by token. Its declarations become a program and its rows predicates as they come: neither
/// the tokens nor the declarations and rows are kept, but for the last one that is complete. After a fault of the grammar nothing
/// more is taken in. A fault of the declarations stands in place of the program, and one of the rows in place of the certificate.
pub struct CertReader {
    grammar: CertificateParser,
    parts: Parts,
    /// What the last token completed. It counts as put in.
    pending: Option<Completed>,
}

impl Drop for CertReader {
    fn drop(self) {
        let Self {
            grammar: _,
            parts: _,
            pending: _,
        } = self;
    }
}

impl Model for CertReader {
    ghost use Rattle.std.specs.Coded.{codes};
    ghost use Rattle.nk_grammar.specs.CodedTree.{coded_tree, coded_trees};
    ghost use Rattle.nk_names.specs.CodedPolicy.{coded_policy};
    ghost use Rattle.nk_certtext.specs.InMemory.{parts_in};
    ghost use Rattle.nk_certtext.specs.Progress.{CertProgress, with_completed};

    ghost Value = { CertProgress };

    ghost coded = { Prim.hlevel (codes, coded_policy, coded_tree, coded_trees) };

    ghost view = { λ r. record { grammar = r.grammar; parts = with_completed (parts_in r.parts) r.pending } };
}

impl CertReader {
    /// A reader before the first token. The only error is that memory ran out.
    pub fn new(alloc: Global) -> Result<CertReader, AllocError>
        ensures { IfOk result (IsTaken []) }
    {
        Ok(CertReader {
            grammar: CertificateParser::new(alloc),
            parts: Parts {
                program: ProgramReader::new(alloc)?,
                rows: RowsRead::Nothing,
            },
            pending: None,
        })
    }

    /// One more token, by what is known.
    fn put(&mut self, alloc: Global, token: &Token) -> Result<(), AllocError>
        ensures taken { (ts : List Token) (ds : List Declaration) (rs : List Row)
            → OnOk result (IsTakenOn ts ds rs self.old token.now self.new) }
        ensures stopped { HasStopped self.old → IsOk result × (self.new ≡ self.old) }
        ensures err { OnErr result (self.new ≡ self.old) }
    {
        if self.grammar.is_stopped() {
            return Ok(());
        }
        self.parts.put_pending(alloc, &mut self.pending)?;
        let part = self.grammar.take(alloc, token)?;
        keep_part(&mut self.pending, part);
        Ok(())
    }

    /// One more token. A fault of the text is no error here: `end` answers it.
    ///
    /// `AllocError` says that memory ran out, and then nothing changed, so the token can be taken again. Where the grammar has a
    /// fault, nothing changes any more and no memory is taken.
    pub fn take(&mut self, alloc: Global, token: &Token) -> Result<(), AllocError>
        ensures tokens { (ts : List Token) → IsTaken ts self.old
            → OnOk result (IsTaken (ts ++ token.now ∷ []) self.new) }
        ensures unmended { (ts : List Token) → IsTaken ts self.old
            → (CertifiedGoesOn (terminals ts) → ⊥) → IsOk result × (self.new ≡ self.old) }
        ensures stopped { HasStopped self.old → IsOk result × (self.new ≡ self.old) }
        ensures err { OnErr result (self.new ≡ self.old) }
    {
        // This is a law: a reader of the grammar has stopped where no text goes on with the tokens.
        a_certified_reader_stops_at_the_first_fault();
        self.put(alloc, token)
    }

    /// The program and the certificate of the tokens that were taken, or their first fault: that of the grammar, as
    /// `nk_grammar::file_with_certificate` says, else that of the declarations, as `nk_names::reading::program` says, else that of
    /// the rows, as `read_cert` says. Each row that is read has a predicate. It spends the value, refused or not.
    pub fn end(self, alloc: Global) -> Result<(Program, Certificate), TextError>
        requires small { (ts : List Token) × IsTaken ts self × All (λ t. t.value ≤ largest) ts }
        ensures read { (ts : List Token) → IsTaken ts self
            → ReturnsText (λ r. (program_by r.0, certificate_value r.1)) result
            (text_of_tokens ts) }
        ensures predicates { IfOk result (λ r. HasPredicates (certificate_value r.1)) }
    {
        // This is a law: what is complete has numbers of a text.
        what_is_completed_is_written();
        let CertReader {
            grammar,
            parts,
            pending,
        } = self;
        let last = grammar.end(alloc);
        let mut parts = parts;
        match parts.put_last(alloc, &pending, &last) {
            Ok(()) => parts.finish(alloc),
            Err(error) => Err(error),
        }
    }
}
