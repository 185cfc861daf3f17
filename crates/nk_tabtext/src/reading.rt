//! The tables of a text.
ghost use Rattle.std.specs.Prelude.{◌≡◌, ℕ, ◌++◌, ◌∷◌, List, [], Ok, IfOk, IsOk, OnErr, OnOk};
ghost use Rattle.nk_lex.specs.declared.token.Token.{Token};
ghost use Rattle.nk_lex.specs.Lex.{tokens_of};
ghost use Rattle.nk_tabgrammar.specs.Answer.{table_terminals};
ghost use Rattle.nk_tabgrammar.specs.Machine.{TableParseReturns};
ghost use Rattle.nk_tabgrammar.specs.Spelling.{TableTextGoesOn};
ghost use Rattle.nk_tabtext.specs.InMemory.{known_names_in};
ghost use Rattle.nk_tabtext.specs.Progress.{IsStopped, IsTaken, Stopped, line_of_fault, is_table_stopped, known_after, progress_after, tables_of_progress, with_fault};
ghost use Rattle.nk_tabtext.specs.ReadBack.{ArePrintableTables};
ghost use Rattle.nk_tabtext.specs.Values.{lexed, tables_of, tables_of_tokens};

use crate::partial::Partial;
use nk_lex::{LexError, Token, tokens};
use nk_tabgrammar::{ReadError, State, Tells};
use nk_table::Tables;
use std::alloc::{AllocError, Global};
use std::marker::Model;

/// What is known of the tokens so far.
#[derive(Drop)]
enum Known {
    /// They broke no rule.
    Sound(Partial),
    /// Text goes on with them, and the first rule is broken on this line.
    Faulty(u64),
    /// No text goes on with the token on this line.
    Stopped(u64),
}

/// The line of a fault, or none where memory ran out.
fn line_of(error: ReadError) -> Option<u64>
    ensures { result ≡ line_of_fault error }
{
    match error {
        ReadError::NoMemory => None,
        ReadError::BadByte { line } => Some(line),
        ReadError::NumberTooLarge { line } => Some(line),
        ReadError::Unexpected { line } => Some(line),
        ReadError::TableFault { line } => Some(line),
    }
}

impl Known {
    /// One more token, by what it tells: the line of the rule that it is the first to break, or none. Where memory ran out,
    /// nothing changed.
    fn tell(
        &mut self,
        alloc: Global,
        tells: Tells,
        token: &Token,
    ) -> Result<Option<u64>, AllocError>
        ensures told { IfOk result
            (λ line. known_after (known_names_in self.old) tells token.now
            ≡ with_fault line (known_names_in self.new)) }
        ensures err { OnErr result (known_names_in self.new ≡ known_names_in self.old) }
    {
        let told = match self {
            Known::Sound(partial) => partial.tell(alloc, tells, token),
            Known::Faulty(_) => Ok(()),
            Known::Stopped(_) => Ok(()),
        };
        match told {
            Ok(()) => Ok(None),
            Err(error) => match line_of(error) {
                Some(line) => Ok(Some(line)),
                None => Err(AllocError),
            },
        }
    }

    /// The first rule is broken on this line, where one is.
    fn put_fault(&mut self, line: Option<u64>)
        ensures { known_names_in self.new ≡ with_fault line (known_names_in self.old) }
    {
        if let Some(line) = line {
            *self = Known::Faulty(line);
        }
    }

    /// One more token, by what it tells. Where memory ran out, nothing changed.
    fn go_on(&mut self, alloc: Global, tells: Tells, token: &Token) -> Result<(), AllocError>
        ensures ok { OnOk result
            (known_names_in self.new ≡ known_after (known_names_in self.old) tells token.now) }
        ensures kept { OnErr result (known_names_in self.new ≡ known_names_in self.old) }
    {
        let line = self.tell(alloc, tells, token)?;
        self.put_fault(line);
        Ok(())
    }

    /// No text goes on with the token on this line.
    fn stop(&mut self, line: u64)
        ensures { known_names_in self.new ≡ Stopped line }
    {
        *self = Known::Stopped(line);
    }
}

/// A table text read token by token. Each token becomes a part of the tables as it comes: neither the tokens nor what they
/// write is kept. After a fault of the rules nothing but its line and what may come next is kept; after a token with which no
/// text goes on nothing but that token's line.
pub struct TableReader {
    state: State,
    line: u64,
    known: Known,
}

impl Drop for TableReader {
    fn drop(self) {
        let Self {
            state: _,
            line: _,
            known: _,
        } = self;
    }
}

impl Model for TableReader {
    ghost use Rattle.nk_tabtext.specs.InMemory.{table_progress_of};
    ghost use Rattle.nk_tabtext.specs.Progress.{Progress};

    ghost Value = { Progress };

    ghost view = { λ r. table_progress_of r.state r.line r.known };
}

impl TableReader {
    /// A reader before the first token.
    pub fn new(alloc: Global) -> Result<TableReader, AllocError>
        ensures { IfOk result (IsTaken []) }
    {
        Ok(TableReader {
            state: State::FIRST,
            line: 1,
            known: Known::Sound(Partial::new(alloc)?),
        })
    }

    /// One more token, by the grammar's states.
    fn put(&mut self, alloc: Global, token: &Token) -> Result<(), AllocError>
        ensures taken { OnOk result (self.new ≡ progress_after self.old token.now) }
        ensures stopped { IsStopped self.old → IsOk result × (self.new ≡ self.old) }
        ensures err { OnErr result (self.new ≡ self.old) }
    {
        if self.is_stopped() {
            return Ok(());
        }
        match self.state.after(token.kind) {
            Some((state, tells)) => {
                self.known.go_on(alloc, tells, token)?;
                self.state = state;
                self.line = token.line;
            }
            None => self.known.stop(token.line),
        }
        Ok(())
    }

    /// One more token. A fault of the text is no error here: `end` answers it.
    ///
    /// `AllocError` says that memory ran out, and then nothing changed, so the token can be taken again. Where no text goes on
    /// with the tokens so far, nothing changes any more and no memory is taken.
    pub fn take(&mut self, alloc: Global, token: &Token) -> Result<(), AllocError>
        ensures tokens { (ts : List Token) → IsTaken ts self.old
            → OnOk result (IsTaken (ts ++ token.now ∷ []) self.new) }
        ensures unmended { (ts : List Token) → IsTaken ts self.old
            → (TableTextGoesOn (table_terminals ts) → ⊥) → IsOk result × (self.new ≡ self.old) }
        ensures stopped { IsStopped self.old → IsOk result × (self.new ≡ self.old) }
        ensures err { OnErr result (self.new ≡ self.old) }
    {
        self.put(alloc, token)
    }

    /// Whether a token came with which no text goes on.
    pub fn is_stopped(&self) -> bool
        ensures { result ≡ is_table_stopped self.now.known }
    {
        match &self.known {
            Known::Stopped(_) => true,
            Known::Sound(_) | Known::Faulty(_) => false,
        }
    }

    /// What is known of the tokens, where they end.
    fn known_at_end(self, alloc: Global) -> Result<Tables, ReadError>
        ensures { TableParseReturns (λ t. t) result (tables_of_progress self) }
    {
        let TableReader { state, line, known } = self;
        match known {
            Known::Stopped(at) => Err(ReadError::Unexpected { line: at }),
            Known::Faulty(at) => match state.at_end() {
                Some(_) => Err(ReadError::TableFault { line: at }),
                None => Err(ReadError::Unexpected { line }),
            },
            Known::Sound(partial) => match state.at_end() {
                Some(tells) => partial.end(alloc, tells, line),
                None => Err(ReadError::Unexpected { line }),
            },
        }
    }

    /// The tables of the tokens that were taken, or their first fault with its line, as `read_tables` says. It spends the value,
    /// refused or not.
    pub fn end(self, alloc: Global) -> Result<Tables, ReadError>
        ensures tables { (ts : List Token) → IsTaken ts self
            → TableParseReturns (λ t. t) result (tables_of_tokens ts) }
        ensures printable { (text : List ℕ) (ts : List Token) → tokens_of text ≡ Ok ts
            → IsTaken ts self → IfOk result ArePrintableTables }
    {
        self.known_at_end(alloc)
    }
}

/// The tokens of a text, or its first lexical fault.
fn lex(alloc: Global, text: &[u8]) -> Result<Vec<Token>, ReadError>
    ensures { TableParseReturns (λ v. v.items) result (lexed (tokens_of text.now)) }
{
    match tokens(alloc, text) {
        Ok(tokens) => Ok(tokens),
        Err(LexError::NoMemory) => Err(ReadError::NoMemory),
        Err(LexError::BadByte { line }) => Err(ReadError::BadByte { line }),
        Err(LexError::NumberTooLarge { line }) => Err(ReadError::NumberTooLarge { line }),
    }
}

/// The tables of a text, or its first fault with its line, in this order: a byte that begins no token or a number above
/// 281,474,976,710,655; the first token with which no text can continue, or tokens that end too early; then, in the order
/// of the text, what breaks a rule, at the line of the number or name at fault; last, where no tag is declared, the line
/// of the last token.
///
/// The number after `tables` is 1 or 2. Fields have names of their own, at most sixteen; the tag is one of them,
/// declared above it, once; switches and ports are at most 65,535, a switch is declared once, with each port once; a link
/// leads from a declared port to a declared one, and no two begin or end at one port. A table's switch is declared, and
/// has no table before. A group's number is at least 1 and no other group's of the table, and a row's group is one of the
/// table's. A priority is at most 65,535. Rows match declared fields and `pt`, buckets assign declared fields, each at
/// most once and in its range, and send to ports of at most 65,535.
///
/// A match `f=v/len` is of the values of which the first `len` digits are those of `v`, where `f` has as many binary
/// digits as its largest value. It stands in a text of version 2 alone; `len` is at least 1 and at most all digits, which
/// is the exact match, and `v` has zeros after its first `len`. Where `len` is at fault, or the version, it is at the
/// line of `len`; ones after `len` are looked at last, and are at the line of `v`.
///
/// Tables stand by switch, a declared switch without a table having an empty one, groups by number, matches and
/// assignments by field, rows and buckets as in the text. They can all be printed and read back.
pub fn read_tables(alloc: Global, text: &[u8]) -> Result<Tables, ReadError>
    ensures tables { TableParseReturns (λ t. t) result (tables_of text.now) }
    ensures printable { IfOk result ArePrintableTables }
{
    let tokens = lex(alloc, text)?;
    let mut reader = TableReader::new(alloc)?;
    for token in tokens.as_slice() {
        reader.take(alloc, token)?;
    }
    reader.end(alloc)
}
