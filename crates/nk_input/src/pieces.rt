//! A source read piece by piece into what takes its tokens. No text is kept.
ghost use Rattle.std.specs.Prelude.{◌≡◌, ◌<◌, ◌+◌, ◌-◌, ◌^◌, ◌++◌, ◌∷◌, ℕ, [], List, length, IfOk, MatchResult, OnOk};
ghost use Rattle.nk_lex.specs.declared.token.Token.{Token};
ghost use Rattle.nk_lex.specs.Kept.{IsFed};
ghost use Rattle.nk_lex.specs.Lex.{tokens_of};
ghost use Rattle.nk_lex.specs.Pieces.{completed};
ghost use Rattle.nk_io.specs.Reading.{IsCause};
ghost use Rattle.nk_reply.specs.Answer.{limit};
ghost use Rattle.nk_input.specs.Pieces.{IsLexedAs, IsLexedOf};

use crate::program_tokens::ProgramTokens;
use nk_io::{PieceError, ReadError, Source, Taken, next_piece};
use nk_lex::{Feed, LexError, Token};
use std::alloc::{AllocError, Global};

/// How many bytes are asked for in one call.
const PIECE: usize = 4096;

/// What takes the tokens of a text, one after the other.
pub trait TokenReader {
    ghost use Rattle.std.specs.Prelude.{List};
    ghost use Rattle.nk_lex.specs.declared.token.Token.{Token};

    /// The tokens so far are these.
    ghost has_taken: { Self → List Token → Type 0 };

    /// One more token. A fault of the tokens is no error here. `AllocError` says that memory ran out.
    fn take(&mut self, alloc: Global, token: &Token) -> Result<(), AllocError>
        ensures { (tokens : List Token) → has_taken self.old tokens
            → OnOk result (has_taken self.new (tokens ++ token.now ∷ [])) };
}

impl TokenReader for ProgramTokens {
    ghost use Rattle.nk_input.specs.ProgramTokens.{AreTaken};

    ghost has_taken = { λ reader tokens. AreTaken tokens reader };

    fn take(&mut self, alloc: Global, token: &Token) -> Result<(), AllocError> {
        self.take_token(alloc, token)
    }
}

/// How the bytes of a text are cut into tokens.
#[derive(Clone, Copy, Debug, PartialEq, Eq)]
pub enum Lexed {
    /// There is no lexical fault.
    Whole,
    /// A byte that begins no lexeme.
    BadByte {
        /// The line of the byte.
        line: u64,
    },
    /// A number above the largest.
    NumberTooLarge {
        /// The line of the number.
        line: u64,
    },
}

/// Reads the source to its end, piece by piece. Each token is taken as soon as a piece completes it, and neither the text nor the
/// tokens are kept. Of several refusals the one of the earliest phase is answered: a read fault or too many bytes, then the first
/// lexical fault, and only where there is none have all tokens been taken.
pub fn read_pieces<S: Source, R: TokenReader>(
    alloc: Global,
    source: &mut S,
    reader: &mut R,
) -> Result<Lexed, ReadError>
    requires first { R.has_taken reader.old [] }
    ensures lexed { IfOk result
        (IsLexedOf (S.left source.old) (S.left source.new) (R.has_taken reader.new)) }
    ensures cause { MatchResult result
        (λ _. S.faults source.new ≡ S.faults source.old)
        (IsCause limit (S.left source.old) (S.left source.new)
        (S.faults source.old) (S.faults source.new)) }
{
    let mut feed = Feed::new(alloc);
    let mut taken = Taken::new();
    let mut piece = [0u8; PIECE];
    'pieces: loop {
        let count = match next_piece(source, &mut taken, &mut piece) {
            Ok(count) => count,
            Err(PieceError::ReadFault) => return Err(ReadError::ReadFault),
            Err(PieceError::TooLong) => return Err(ReadError::TooLong),
        };
        if count == 0 {
            return match end_text(alloc, feed, reader) {
                Ok(lexed) => Ok(lexed),
                Err(AllocError) => Err(ReadError::NoMemory),
            };
        }
        if take_piece(alloc, &mut feed, reader, &piece[..count]).is_err() {
            return Err(ReadError::NoMemory);
        }
    }
}

/// Takes the tokens of a text in memory, piece by piece, so that no more of them are kept at once than a piece completes. All are
/// taken where the text has no lexical fault.
pub(crate) fn take_text<R: TokenReader>(
    alloc: Global,
    text: &[u8],
    reader: &mut R,
) -> Result<Lexed, AllocError>
    requires first { R.has_taken reader.old [] }
    ensures { IfOk result (λ lexed. IsLexedAs (R.has_taken reader.new) lexed (tokens_of text.now)) }
{
    let mut feed = Feed::new(alloc);
    let mut rest = text;
    'pieces: while !rest.is_empty() {
        let (piece, more) = rest.split_at(rest.len().min(PIECE));
        take_piece(alloc, &mut feed, reader, piece)?;
        rest = more;
    }
    end_text(alloc, feed, reader)
}

/// Takes the tokens that a piece completes.
fn take_piece<R: TokenReader>(
    alloc: Global,
    feed: &mut Feed,
    reader: &mut R,
    piece: &[u8],
) -> Result<(), AllocError>
    requires room { feed.now.fed + length piece.now < 2 ^ 64 - 1 }
    ensures fed { (text : List ℕ) → IsFed text feed.old
        → OnOk result (IsFed (text ++ piece.now) feed.new) }
    ensures taken { (text : List ℕ) → IsFed text feed.old → R.has_taken reader.old (completed text)
        → OnOk result (R.has_taken reader.new (completed (text ++ piece.now))) }
{
    let tokens = feed.feed(alloc, piece)?;
    take_all(alloc, reader, tokens.as_slice())
}

/// Takes the tokens that the end of the text completes, where it has no lexical fault.
fn end_text<R: TokenReader>(alloc: Global, feed: Feed, reader: &mut R) -> Result<Lexed, AllocError>
    ensures { (text : List ℕ) → IsFed text feed → R.has_taken reader.old (completed text)
        → IfOk result (λ lexed. IsLexedAs (R.has_taken reader.new) lexed (tokens_of text)) }
{
    match feed.end(alloc) {
        Ok(tokens) => {
            take_all(alloc, reader, tokens.as_slice())?;
            Ok(Lexed::Whole)
        }
        Err(LexError::BadByte { line }) => Ok(Lexed::BadByte { line }),
        Err(LexError::NumberTooLarge { line }) => Ok(Lexed::NumberTooLarge { line }),
        Err(LexError::NoMemory) => Err(AllocError),
    }
}

/// Takes the tokens in order.
fn take_all<R: TokenReader>(
    alloc: Global,
    reader: &mut R,
    tokens: &[Token],
) -> Result<(), AllocError>
    ensures { (before : List Token) → R.has_taken reader.old before
        → OnOk result (R.has_taken reader.new (before ++ tokens.now)) }
{
    for token in tokens {
        reader.take(alloc, token)?;
    }
    Ok(())
}
