//! How a piece is cut after what is open, and what it leaves open.
ghost use Rattle.std.specs.Prelude.{
  ◌≡◌,
  ◌<◌,
  ◌≤◌,
  ◌+◌,
  ◌-◌,
  ◌^◌,
  ◌++◌,
  ℕ,
  [],
  slice_index,
  length,
  Ok,
  IfOk,
  IfSome,
  is_some,
  drop,
  OnErr,
  OnOk,
  false,
};
ghost use Rattle.nk_lex.specs.declared.token.LexError.TheVariants.{NoMemory};
ghost use Rattle.nk_lex.specs.declared.unfinished.Pending.TheVariants.{Fault, Held};
ghost use Rattle.std.specs.List.{list_all};
ghost use Rattle.nk_lex.specs.Classes.{is_digit, is_name_byte, not_line_feed};
ghost use Rattle.nk_lex.specs.Lex.{front_of, largest, FitsIn, IsFaultOfText, LexReturns};
ghost use Rattle.nk_lex.specs.Kept.{pending_of, IsPendingWithin};
ghost use Rattle.nk_lex.specs.NextPiece.{
  end_answer,
  ended,
  goes_on,
  held_answer,
  number_answer,
  number_settled,
  has_whole,
  held_past,
  holds_on,
  pending_past,
  wanted,
  wanted_past,
  Fits,
  IsNext,
};
ghost use Rattle.nk_lex.specs.Pieces.{begins_longer, held_of, is_open, settle};

use crate::classes::{digits_len, is_digit, is_name_byte, is_name_start, is_white, line_len};
use crate::front::{Front, front_at};
use crate::lexemes::{line_past, plain, push, put_front, read_lexeme, room_for, value_past};
use crate::unfinished::Pending;
use crate::{Kind, LARGEST, LexError, Token};
use std::alloc::{AllocError, Global};

/// What is kept after a piece, and the tokens that it completes.
#[derive(Drop)]
pub struct Next {
    pub tokens: Vec<Token>,
    pub line: u64,
    pub pending: Pending,
    pub held: Vec<u8>,
}

/// No line feed is among the bytes.
fn has_no_feed(bytes: &[u8]) -> bool
    ensures { result ≡ list_all not_line_feed bytes.now }
{
    bytes.iter().all(|byte| *byte != b'\n')
}

/// Each byte is one of a name.
fn are_name_bytes(bytes: &[u8]) -> bool
    ensures { result ≡ list_all is_name_byte bytes.now }
{
    bytes.iter().all(|byte| is_name_byte(*byte))
}

/// Each byte is a digit.
fn are_digits(bytes: &[u8]) -> bool
    ensures { result ≡ list_all is_digit bytes.now }
{
    bytes.iter().all(|byte| is_digit(*byte))
}

/// The byte alone is a symbol that a second byte makes longer, or begins one.
fn begins_longer(byte: u8) -> bool
    ensures { result ≡ begins_longer byte }
{
    byte == b'=' || byte == b':' || byte == b'-' || byte == b'.'
}

/// The lexeme that begins with this byte takes all the others, and a further one could make it longer.
#[inline(always)]
fn is_open(first: u8, rest: &[u8], front: Front) -> bool
    requires { front ≡ front_of first rest.now }
    ensures { result ≡ is_open first rest.now }
{
    if is_white(first) {
        return false;
    }
    match front {
        Front::Blank(len) => len > rest.len(),
        Front::Name(len) => len > rest.len(),
        Front::Number(len) => len > rest.len(),
        Front::Symbol(..) => begins_longer(first) && rest.is_empty(),
        Front::Bad => begins_longer(first) && rest.is_empty(),
    }
}

/// What stands at the front, where it is a lexeme that no byte makes longer.
#[inline(always)]
fn whole_front(bytes: &[u8]) -> Option<Front>
    ensures whole { is_some result ≡ has_whole bytes.now }
    ensures front { IfSome result (λ f. f ≡ front_of (slice_index bytes.now 0) (drop 1 bytes.now)) }
    ensures fits { IfSome result (λ f. FitsIn f (length bytes.now)) }
{
    let [first, rest @ ..] = bytes else {
        return None;
    };
    let front = front_at(*first, rest);
    if is_open(*first, rest, front) {
        None
    } else {
        Some(front)
    }
}

/// What is kept of the bytes of an open lexeme, or of none.
fn opened(
    alloc: Global,
    bytes: &[u8],
    at: usize,
    line: u64,
    tokens: Vec<Token>,
) -> Result<Next, AllocError>
    ensures tokens { IfOk result (λ n. n.tokens.items ≡ tokens.items) }
    ensures line { IfOk result (λ n. n.line ≡ line) }
    ensures pending { IfOk result (λ n. n.pending ≡ pending_of at bytes.now) }
    ensures held { IfOk result (λ n. n.held.items ≡ held_of bytes.now) }
    ensures quiet { OnErr result (0 < length (held_of bytes.now)) }
{
    let pending = match bytes {
        [] => Pending::Nothing,
        [b'#', ..] => Pending::Comment,
        [first, ..] if is_digit(*first) => Pending::Number {
            start: at,
            value: value_past(0, bytes),
        },
        _ => Pending::Held,
    };
    let held = match pending {
        Pending::Held => Vec::from_slice(alloc, bytes)?,
        _ => Vec::new(alloc),
    };
    Ok(Next {
        tokens,
        line,
        pending,
        held,
    })
}

/// What is kept where the text has a fault.
fn stopped(alloc: Global, tokens: Vec<Token>, line: u64, fault: LexError) -> Next
    ensures tokens { result.tokens.items ≡ tokens.items }
    ensures line { result.line ≡ line }
    ensures pending { result.pending ≡ Fault fault }
    ensures held { result.held.items ≡ [] }
{
    Next {
        tokens,
        line,
        pending: Pending::Fault(fault),
        held: Vec::new(alloc),
    }
}

/// What is kept where the text has this fault. Where the error is that memory ran out, it is the answer.
fn stop(alloc: Global, tokens: Vec<Token>, line: u64, error: LexError) -> Result<Next, AllocError>
    ensures fault { OnOk result (IsFaultOfText error) }
    ensures tokens { IfOk result (λ n. n.tokens.items ≡ tokens.items) }
    ensures line { IfOk result (λ n. n.line ≡ line) }
    ensures pending { IfOk result (λ n. n.pending ≡ Fault error) }
    ensures held { IfOk result (λ n. n.held.items ≡ []) }
    ensures err { OnErr result (error ≡ NoMemory) }
{
    match error {
        LexError::NoMemory => Err(AllocError),
        LexError::BadByte { .. } => Ok(stopped(alloc, tokens, line, error)),
        LexError::NumberTooLarge { .. } => Ok(stopped(alloc, tokens, line, error)),
    }
}

/// The tokens that came before, the tokens of these bytes that no further byte can change, and what is kept of the rest. The
/// first byte has the index `at` in the text.
fn settle(
    alloc: Global,
    bytes: &[u8],
    at: usize,
    line: u64,
    before: Vec<Token>,
) -> Result<Next, AllocError>
    requires room { at + length bytes.now < 2 ^ 64 - 1 }
    requires lines { line ≤ at + 1 }
    ensures next { IfOk result (IsNext before.items (settle bytes.now 0 line at)) }
    ensures fits { IfOk result (Fits (at + length bytes.now)) }
    ensures quiet { OnErr result (0 < wanted (settle bytes.now 0 line at)) }
{
    let mut tokens = before;
    let mut here = line;
    let mut from = 0;
    'lexemes: while let Some(front) = whole_front(&bytes[from..]) {
        match put_front(alloc, &mut tokens, front, &bytes[from..], at + from, here) {
            Ok(len) => {
                here = line_past(here, bytes[from]);
                from += len;
            }
            Err(error) => return stop(alloc, tokens, here, error),
        }
    }
    opened(alloc, &bytes[from..], at + from, here, tokens)
}

/// Whether all of the piece belongs to what is open, or the text has a fault.
pub fn goes_on(pending: Pending, held: &[u8], piece: &[u8]) -> bool
    ensures { result ≡ goes_on pending held.now piece.now }
{
    match pending {
        Pending::Nothing => piece.is_empty(),
        Pending::Comment => has_no_feed(piece),
        Pending::Number { .. } => are_digits(piece),
        Pending::Held => holds_on(held, piece),
        Pending::Fault(_) => true,
    }
}

/// All of the piece belongs to the open name or symbol.
fn holds_on(held: &[u8], piece: &[u8]) -> bool
    ensures { result ≡ holds_on held.now piece.now }
{
    match held {
        [first, ..] if is_name_start(*first) => are_name_bytes(piece),
        _ => piece.is_empty(),
    }
}

/// Puts the piece after the bytes of an open name or symbol, where one is open.
pub fn hold(held: &mut Vec<u8>, pending: Pending, piece: &[u8]) -> Result<(), AllocError>
    ensures ok { OnOk result (held.new.items ≡ held_past pending held.old.items piece.now) }
    ensures err { OnErr result (held.new.items ≡ held.old.items) }
    ensures quiet { OnErr result (pending ≡ Held) }
{
    match pending {
        Pending::Held => held.extend_from_slice(piece),
        _ => Ok(()),
    }
}

/// What is open where all of the piece belongs to it.
pub fn pending_past(pending: Pending, piece: &[u8]) -> Pending
    requires { (fed : ℕ) × IsPendingWithin pending fed }
    ensures { result ≡ pending_past pending piece.now }
{
    match pending {
        Pending::Number { start, value } => Pending::Number {
            start,
            value: value_past(value, piece),
        },
        _ => pending,
    }
}

/// The bytes that are held, and the piece after them.
fn joined(alloc: Global, held: &[u8], piece: &[u8]) -> Result<Vec<u8>, AllocError>
    ensures { IfOk result (λ v. v.items ≡ held.now ++ piece.now) }
{
    let mut bytes = Vec::from_slice(alloc, held)?;
    bytes.extend_from_slice(piece)?;
    Ok(bytes)
}

/// The tokens that a piece completes after what is open, where it ends it, and what is kept then.
pub fn cut_on(
    alloc: Global,
    pending: Pending,
    held: &[u8],
    fed: usize,
    line: u64,
    piece: &[u8],
) -> Result<Next, AllocError>
    requires room { fed + length piece.now < 2 ^ 64 - 1 }
    requires lines { line + length held.now ≤ fed + 1 }
    requires held { length held.now ≤ fed }
    requires within { IsPendingWithin pending fed }
    requires ends { goes_on pending held.now piece.now ≡ false }
    ensures next { IfOk result (IsNext [] (ended pending held.now fed line piece.now)) }
    ensures fits { IfOk result (Fits (fed + length piece.now)) }
    ensures quiet { OnErr result
        (0 < wanted_past pending (ended pending held.now fed line piece.now)) }
{
    match pending {
        Pending::Nothing => settle(alloc, piece, fed, line, Vec::new(alloc)),
        Pending::Comment => {
            let len = line_len(piece);
            settle(alloc, &piece[len..], fed + len, line, Vec::new(alloc))
        }
        Pending::Number { start, value } => number_ends(alloc, start, value, fed, line, piece),
        Pending::Held => {
            let bytes = joined(alloc, held, piece)?;
            settle(alloc, &bytes, fed - held.len(), line, Vec::new(alloc))
        }
        Pending::Fault(fault) => Ok(stopped(alloc, Vec::new(alloc), line, fault)),
    }
}

/// The token of an open number whose last digits stand at the front of a piece, and those after it.
fn number_ends(
    alloc: Global,
    start: usize,
    value: u64,
    fed: usize,
    line: u64,
    piece: &[u8],
) -> Result<Next, AllocError>
    requires room { fed + length piece.now < 2 ^ 64 - 1 }
    requires lines { line ≤ fed + 1 }
    requires within { (start ≤ fed) × (value ≤ largest + 1) }
    ensures next { IfOk result (IsNext [] (number_settled start value fed line piece.now)) }
    ensures fits { IfOk result (Fits (fed + length piece.now)) }
    ensures quiet { OnErr result (0 < wanted (number_settled start value fed line piece.now)) }
{
    let len = digits_len(piece);
    let value = value_past(value, &piece[..len]);
    if value > LARGEST {
        let fault = LexError::NumberTooLarge { line };
        return Ok(stopped(alloc, Vec::new(alloc), line, fault));
    }
    let at = fed + len;
    let mut tokens = Vec::with_capacity(alloc, room_for(piece.len()))?;
    tokens.push(plain(alloc, Kind::Number, start, at - start, line, value))?;
    settle(alloc, &piece[len..], at, line, tokens)
}

/// The tokens that what is open at the end of a text comes to, or the text's fault.
pub fn ending(
    alloc: Global,
    pending: Pending,
    held: &[u8],
    fed: usize,
    line: u64,
) -> Result<Vec<Token>, LexError>
    requires held { length held.now ≤ fed }
    requires within { IsPendingWithin pending fed }
    ensures { LexReturns (λ v. v.items) result (end_answer pending held.now fed line) }
{
    match pending {
        Pending::Nothing | Pending::Comment => Ok(Vec::new(alloc)),
        Pending::Number { start, value } => number_alone(alloc, start, fed - start, line, value),
        Pending::Held => held_alone(alloc, held, fed - held.len(), line),
        Pending::Fault(fault) => Err(fault),
    }
}

/// The token of a number of this value, which stops above `LARGEST`.
fn number_alone(
    alloc: Global,
    at: usize,
    len: usize,
    line: u64,
    value: u64,
) -> Result<Vec<Token>, LexError>
    requires room { at + len < 2 ^ 64 }
    ensures { LexReturns (λ v. v.items) result (number_answer at len line value) }
{
    if value > LARGEST {
        return Err(LexError::NumberTooLarge { line });
    }
    let mut tokens = Vec::new(alloc);
    push(
        &mut tokens,
        plain(alloc, Kind::Number, at, len, line, value),
        len,
    )?;
    Ok(tokens)
}

/// The token of a name or a symbol after which nothing comes.
fn held_alone(alloc: Global, held: &[u8], at: usize, line: u64) -> Result<Vec<Token>, LexError>
    requires room { at + length held.now < 2 ^ 64 }
    ensures { LexReturns (λ v. v.items) result (held_answer held.now line at) }
{
    let mut tokens = Vec::new(alloc);
    if held.is_empty() {
        return Ok(tokens);
    }
    read_lexeme(alloc, &mut tokens, held, at, line)?;
    Ok(tokens)
}
