//! A text with a certificate, read token by token up to its first fault.
ghost use Rattle.std.specs.Prelude.{◌≡◌, ◌∷◌, ℕ, true, [], Ok, None, IfErr, IfOk, Some};
ghost use Rattle.std.specs.declared.vec.Vec.{Vec};
ghost use Rattle.std.specs.declared.alloc.Global.{Global};
ghost use Rattle.nk_grammar.specs.Certified.{certified, row_value};
ghost use Rattle.nk_grammar.specs.CertifiedMachine.{
  certified_at_end,
  certified_end_at,
  certify_one,
  certifying,
  declaring,
  in_row,
  judged_certified,
  next_certifying,
  number_wanted,
  numbers_read,
  row_in,
  row_done,
  with_row,
};
ghost use Rattle.nk_grammar.specs.CertifiedProgress.{declarations_by, rows_by, with_done};
ghost use Rattle.nk_grammar.specs.CertificateParser.{
  CertifiedTakes,
  CertifiedTakesInside,
  StopsRow,
  certified_phase_in,
  completing,
};
ghost use Rattle.nk_grammar.specs.FileMachine.{ParseReturns, first_reading};
ghost use Rattle.nk_grammar.specs.FileReader.{StaysWithoutMemory, declaration_done};
ghost use Rattle.nk_grammar.specs.Machine.{policy_ended};
ghost use Rattle.nk_grammar.specs.Reader.{reader_state};
ghost use Rattle.nk_grammar.specs.Terminal.{terminal_of};

use crate::decl::{CertRow, Completed, Decl, GrammarError};
use crate::parts::number_of;
use crate::reader::PolicyReader;
use crate::text::Reader;
use nk_field::List;
use nk_lex::{Kind, Token};
use std::alloc::{AllocError, AllocFailed, Global};
use std::mem::replace;

/// What has been read before the next token.
#[derive(Drop)]
pub enum CertifiedStage {
    /// The word `certificate` hasn't come yet.
    Declaring,
    /// The start row is wanted.
    RowWanted,
    /// The word `start` is wanted; the line is that of the word `row`, here and below.
    StartWanted(u64),
    StartRead(u64),
    NumberWanted(u64),
    NumbersRead(u64, Vec<u64>),
    /// The policy of a row.
    InRow(u64, Vec<u64>),
}

impl CertifiedStage {
    /// Another stage takes this one's place.
    fn set(&mut self, stage: CertifiedStage)
        ensures { self.new ≡ stage }
    {
        *self = stage;
    }
}

/// Reads a text and the certificate after it, token by token. It keeps what may come next, and the policy that is being read. A
/// declaration or row is handed out by the token that completes it. A token for which memory runs out changes nothing; after a fault
/// nothing is said of the state.
pub struct SoundReader {
    stage: CertifiedStage,
    reader: Reader,
    policy: PolicyReader,
}

impl Drop for SoundReader {
    fn drop(self) {
        let Self {
            stage: _,
            reader: _,
            policy: _,
        } = self;
    }
}

/// The line of a word `row`, if the token is one.
fn row_line(token: &Token) -> Option<u64>
    ensures { result ≡ row_in (terminal_of token.now) }
{
    match token.kind {
        Kind::Row => Some(token.line),
        _ => None,
    }
}

/// A declaration that is done, as what a token completes.
fn declared(done: Option<Decl>) -> Option<Completed>
    ensures declarations { declarations_by result ≡ declaration_done done }
    ensures rows { rows_by result ≡ [] }
{
    match done {
        Some(decl) => Some(Completed::Declaration(decl)),
        None => None,
    }
}

impl SoundReader {
    /// A reader before the first token. It takes no memory.
    pub fn new(alloc: Global) -> SoundReader
        ensures { certified_phase_in result ≡ declaring first_reading }
    {
        SoundReader {
            stage: CertifiedStage::Declaring,
            reader: Reader::new(alloc),
            policy: PolicyReader::new(alloc),
        }
    }

    /// The next token is another part of what is read, and this is done.
    fn go(
        &mut self,
        stage: CertifiedStage,
        done: Option<Completed>,
    ) -> Result<Option<Completed>, GrammarError>
        ensures ok { result ≡ Ok done }
        ensures stage { self.new.stage ≡ stage }
        ensures policy { self.new.policy ≡ self.old.policy }
        ensures reader { self.new.reader ≡ self.old.reader }
    {
        self.stage.set(stage);
        Ok(done)
    }

    /// A row's policy took a token, and goes on.
    fn go_on_in_row(&self, token: &Token) -> Result<bool, GrammarError>
        ensures read { (line : ℕ) (ns : Vec ℕ Global)
            → self.now.stage ≡ CertifiedStage.InRow line ns
            → ParseReturns (λ taken. certifying (certified_phase_in self.now) [] []) result
            (judged_certified token.now.line
            (Some (certifying (in_row line ns.items (reader_state self.now.policy)) [] []))) }
        ensures taken { IfOk result (λ taken. taken ≡ true) }
        ensures err { IfErr result (λ e. e ≡ GrammarError.TooDeep token.now.line) }
    {
        if self.policy.is_shallow() {
            Ok(true)
        } else {
            Err(GrammarError::TooDeep { line: token.line })
        }
    }

    /// A row is done where its policy ends before this token, a word `row`.
    fn end_row(&mut self, row: CertRow, token: &Token) -> Result<Option<Completed>, GrammarError>
        ensures read { ParseReturns (completing (certified_phase_in self.new)) result
            (judged_certified token.now.line (with_row (terminal_of token.now) None
            (λ l. Some (certifying (number_wanted l) [] (row_value row ∷ []))))) }
        ensures err { IfErr result (λ e. e ≡ GrammarError.Unexpected token.now.line) }
    {
        match row_line(token) {
            Some(next) => self.go(
                CertifiedStage::NumberWanted(next),
                Some(Completed::Row(row)),
            ),
            None => Err(GrammarError::Unexpected { line: token.line }),
        }
    }

    /// One more token of a row's policy, if it goes on with it. What is read of the row stays where it is.
    fn take_in_row(&mut self, alloc: Global, token: &Token) -> Result<bool, GrammarError>
        ensures { (line : ℕ) (ns : Vec ℕ Global) → self.old.stage ≡ CertifiedStage.InRow line ns
            → CertifiedTakesInside (in_row line ns.items (reader_state self.old.policy))
            (certified_phase_in self.new) token.now.line
            (terminal_of token.now) result }
    {
        match self.policy.take(alloc, token) {
            Ok(true) => self.go_on_in_row(token),
            Ok(false) => Ok(false),
            Err(AllocError) => Err(GrammarError::NoMemory),
        }
    }

    /// One more token of a policy before the certificate, if it goes on with it.
    #[tactic(auto, using(crate::proofs::Certificates::declaring_judged))]
    fn declare_inside(&mut self, alloc: Global, token: &Token) -> Result<bool, GrammarError>
        requires stage { self.old.stage ≡ CertifiedStage.Declaring }
        ensures { CertifiedTakesInside (certified_phase_in self.old)
            (certified_phase_in self.new) token.now.line
            (terminal_of token.now) result }
    {
        match token.kind {
            Kind::Certificate => Ok(false),
            _ => self.reader.take_inside(alloc, token),
        }
    }

    /// Reads one more token inside a policy before the certificate or a row's policy, and says whether it was taken; else nothing
    /// changed, and a row's policy that is being read doesn't go on with it. What is taken completes nothing. An error is as `take` says.
    pub fn take_inside(&mut self, alloc: Global, token: &Token) -> Result<bool, GrammarError>
        ensures { CertifiedTakesInside (certified_phase_in self.old)
            (certified_phase_in self.new) token.now.line
            (terminal_of token.now) result }
    {
        match &self.stage {
            CertifiedStage::Declaring => self.declare_inside(alloc, token),
            CertifiedStage::InRow(..) => self.take_in_row(alloc, token),
            _ => Ok(false),
        }
    }

    /// The first token after a row's policy, which doesn't go on with it.
    fn take_after_row(
        &mut self,
        alloc: Global,
        line: u64,
        positions: Vec<u64>,
        token: &Token,
    ) -> Result<Option<Completed>, GrammarError>
        ensures read { ParseReturns (completing (certified_phase_in self.new)) result
            (judged_certified token.now.line (row_done [] [] positions.items line
            (policy_ended (reader_state self.old.policy)) (terminal_of token.now))) }
        ensures kept { StaysWithoutMemory result
            (in_row line positions.items (reader_state self.old.policy))
            (certified_phase_in self.new) }
    {
        match self.policy.end(alloc) {
            Ok(Some(pred)) => {
                let positions = List::from_vec(positions);
                self.end_row(
                    CertRow {
                        positions,
                        pred,
                        line,
                    },
                    token,
                )
            }
            Ok(None) => Err(GrammarError::Unexpected { line: token.line }),
            Err(AllocError) => {
                self.stage.set(CertifiedStage::InRow(line, positions));
                Err(GrammarError::NoMemory)
            }
        }
    }

    /// A number or the colon of a row.
    fn take_number(
        &mut self,
        alloc: Global,
        line: u64,
        positions: Vec<u64>,
        token: &Token,
    ) -> Result<Option<Completed>, GrammarError>
        ensures read { ParseReturns (completing (certified_phase_in self.new)) result
            (judged_certified token.now.line (next_certifying (numbers_read line positions.items)
            [] [] (terminal_of token.now))) }
        ensures kept { StaysWithoutMemory result (numbers_read line positions.items)
            (certified_phase_in self.new) }
    {
        let mut positions = positions;
        match token.kind {
            Kind::Colon => {
                self.policy = PolicyReader::new(alloc);
                self.go(CertifiedStage::InRow(line, positions), None)
            }
            Kind::Number => match positions.push(token.value) {
                Ok(()) => self.go(CertifiedStage::NumbersRead(line, positions), None),
                Err(AllocFailed { .. }) => {
                    self.stage.set(CertifiedStage::NumbersRead(line, positions));
                    Err(GrammarError::NoMemory)
                }
            },
            _ => Err(GrammarError::Unexpected { line: token.line }),
        }
    }

    /// The first number of a row.
    fn take_first_number(
        &mut self,
        alloc: Global,
        line: u64,
        token: &Token,
    ) -> Result<Option<Completed>, GrammarError>
        ensures read { ParseReturns (completing (certified_phase_in self.new)) result
            (judged_certified token.now.line (next_certifying (number_wanted line)
            [] [] (terminal_of token.now))) }
        ensures kept { StaysWithoutMemory result (number_wanted line)
            (certified_phase_in self.new) }
    {
        match number_of(token) {
            Some(number) => {
                let mut positions = Vec::new(alloc);
                match positions.push(number.value) {
                    Ok(()) => self.go(CertifiedStage::NumbersRead(line, positions), None),
                    Err(AllocFailed { .. }) => {
                        self.stage.set(CertifiedStage::NumberWanted(line));
                        Err(GrammarError::NoMemory)
                    }
                }
            }
            None => Err(GrammarError::Unexpected { line: token.line }),
        }
    }

    /// A token before the certificate, or the word itself.
    #[tactic(auto, using(crate::proofs::Certificates::declaring_judged))]
    fn take_declaring(
        &mut self,
        alloc: Global,
        token: &Token,
    ) -> Result<Option<Completed>, GrammarError>
        requires stage { self.old.stage ≡ CertifiedStage.Declaring }
        ensures read { ParseReturns (completing (certified_phase_in self.new)) result
            (judged_certified token.now.line
            (certify_one (with_done (certified_phase_in self.old) [] [])
            (terminal_of token.now))) }
        ensures kept { StaysWithoutMemory result (certified_phase_in self.old)
            (certified_phase_in self.new) }
    {
        match token.kind {
            Kind::Certificate => match self.reader.end(alloc, token.line) {
                Ok(done) => self.go(CertifiedStage::RowWanted, declared(done)),
                Err(error) => Err(error),
            },
            _ => match self.reader.take(alloc, token) {
                Ok(done) => Ok(declared(done)),
                Err(error) => Err(error),
            },
        }
    }

    /// One more token that no row's policy goes on with. It stands apart from what policies take, of which most of a text is made.
    #[inline(never)]
    fn take_other(
        &mut self,
        alloc: Global,
        token: &Token,
    ) -> Result<Option<Completed>, GrammarError>
        requires stops { StopsRow (certified_phase_in self.old) (terminal_of token.now) }
        ensures { CertifiedTakes (certified_phase_in self.old)
            (certified_phase_in self.new) token.now.line
            (terminal_of token.now) result }
    {
        match replace(&mut self.stage, CertifiedStage::Declaring) {
            CertifiedStage::Declaring => self.take_declaring(alloc, token),
            CertifiedStage::RowWanted => match row_line(token) {
                Some(line) => self.go(CertifiedStage::StartWanted(line), None),
                None => Err(GrammarError::Unexpected { line: token.line }),
            },
            CertifiedStage::StartWanted(line) => match token.kind {
                Kind::Start => self.go(CertifiedStage::StartRead(line), None),
                _ => Err(GrammarError::Unexpected { line: token.line }),
            },
            CertifiedStage::StartRead(line) => match token.kind {
                Kind::Colon => {
                    self.policy = PolicyReader::new(alloc);
                    self.go(CertifiedStage::InRow(line, Vec::new(alloc)), None)
                }
                _ => Err(GrammarError::Unexpected { line: token.line }),
            },
            CertifiedStage::NumberWanted(line) => self.take_first_number(alloc, line, token),
            CertifiedStage::NumbersRead(line, positions) => {
                self.take_number(alloc, line, positions, token)
            }
            CertifiedStage::InRow(line, positions) => {
                self.take_after_row(alloc, line, positions, token)
            }
        }
    }

    /// Reads one more token, and hands out the declaration or row that it completes. An error is the first fault of the tokens so far,
    /// or that memory ran out.
    pub fn take(&mut self, alloc: Global, token: &Token) -> Result<Option<Completed>, GrammarError>
        ensures read { ParseReturns (completing (certified_phase_in self.new)) result
            (judged_certified token.now.line
            (certify_one (with_done (certified_phase_in self.old) [] [])
            (terminal_of token.now))) }
        ensures kept { StaysWithoutMemory result (certified_phase_in self.old)
            (certified_phase_in self.new) }
    {
        match self.take_inside(alloc, token) {
            Ok(true) => Ok(None),
            Ok(false) => self.take_other(alloc, token),
            Err(error) => Err(error),
        }
    }

    /// Ends the text, and hands out the last row; `line` is that of the last token. `Unexpected` comes where the tokens so far are no
    /// text with a certificate.
    pub fn end(&mut self, alloc: Global, line: u64) -> Result<CertRow, GrammarError>
        ensures { ParseReturns (λ row. certified [] (row_value row ∷ [])) result
            (certified_end_at line (certified_at_end
            (with_done (certified_phase_in self.old) [] []))) }
    {
        match replace(&mut self.stage, CertifiedStage::Declaring) {
            CertifiedStage::InRow(of_row, positions) => match self.policy.end(alloc) {
                Ok(Some(pred)) => Ok(CertRow {
                    positions: List::from_vec(positions),
                    pred,
                    line: of_row,
                }),
                Ok(None) => Err(GrammarError::Unexpected { line }),
                Err(AllocError) => Err(GrammarError::NoMemory),
            },
            _ => Err(GrammarError::Unexpected { line }),
        }
    }
}
