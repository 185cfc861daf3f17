//! The tokens of a text.
ghost use Rattle.std.specs.Prelude.{
  ◌≡◌,
  ◌<◌,
  ◌≤◌,
  ◌+◌,
  ◌-◌,
  ◌^◌,
  ◌++◌,
  [],
  ◌∷◌,
  length,
  drop,
  Option,
  Some,
  None,
  Ok,
  Err,
  IfOk,
  IfErr,
  OnOk,
  OnErr,
  min,
  option_to_list,
  if◌then◌else◌,
  slice_index,
  nat_le,
  IsUtf8,
};
ghost use Rattle.std.specs.List.{All};
ghost use Rattle.nk_lex.specs.declared.token.Token.{Token};
ghost use Rattle.nk_lex.specs.Kinds.{kind_of_name};
ghost use Rattle.nk_lex.specs.Kept.{value_on};
ghost use Rattle.nk_lex.specs.Lex.{
  cut_front,
  front_of,
  FitsIn,
  largest,
  line_after,
  number_of,
  token,
  tokens_of,
  value_of,
  LexFails,
  HasToken,
  LexReturns,
};

use crate::front::{Front, front_at};
use crate::kind::kind_of_name;
use crate::{Bytes, Kind, LARGEST, LexError, Token};
use std::alloc::{AllocError, AllocFailed, Global};

/// The value of a number that begins with digits of this value and goes on with these digits;
/// `LARGEST` + 1 for every number above `LARGEST`.
pub fn value_past(front: u64, digits: &[u8]) -> u64
    requires { front ≤ largest + 1 }
    ensures { result ≡ min (value_on front digits.now) (largest + 1) }
{
    let mut value = front;
    for digit in digits {
        let next = value * 10 + u64::from(digit.saturating_sub(b'0'));
        value = next.min(LARGEST + 1);
    }
    value
}

/// The number that digits write, if it isn't too large.
fn value(digits: &[u8]) -> Option<u64>
    ensures { result ≡
        (if nat_le (value_of digits.now) largest then Some (value_of digits.now) else None) }
{
    let value = value_past(0, digits);
    if value <= LARGEST { Some(value) } else { None }
}

/// A symbol's or a number's token, which has no text.
pub fn plain(alloc: Global, kind: Kind, at: usize, len: usize, line: u64, value: u64) -> Token
    requires room { at + len < 2 ^ 64 }
    ensures { result ≡ token kind at len line value [] }
{
    Token {
        kind,
        start: at,
        end: at + len,
        line,
        value,
        text: Bytes::new(alloc),
    }
}

/// A name's bytes as text.
fn text_of(name: &[u8]) -> &str
    requires { IsUtf8 name.now }
    ensures { result.now ≡ name.now }
{
    match str::from_utf8(name) {
        Ok(text) => text,
        Err(_) => unreachable!(),
    }
}

/// The largest number of tokens that room is made for at once.
const MOST: usize = 2048;

/// For how many tokens room is made before this many bytes.
pub fn room_for(bytes: usize) -> usize {
    (bytes / 2).min(MOST)
}

/// Puts a token at the end, with the error of a text. The first token makes room for those that so many bytes usually have. A list that
/// grows step by step is copied as often, which took a sixtieth of the instructions for the largest grid.
#[inline(always)]
pub fn push(tokens: &mut Vec<Token>, token: Token, bytes: usize) -> Result<(), LexError>
    ensures ok { OnOk result (tokens.new.items ≡ tokens.old.items ++ token ∷ []) }
    ensures err { IfErr result (λ e. e ≡ LexError.NoMemory) }
    ensures kept { OnErr result (tokens.new.items ≡ tokens.old.items) }
{
    if tokens.is_empty() {
        tokens.reserve(room_for(bytes))?;
    }
    match tokens.push(token) {
        Ok(()) => Ok(()),
        Err(AllocFailed { .. }) => Err(LexError::NoMemory),
    }
}

/// Puts the token of a name or a keyword at the end. The only error is that memory ran out.
#[inline(always)]
fn put_word(
    alloc: Global,
    tokens: &mut Vec<Token>,
    name: &[u8],
    at: usize,
    line: u64,
    bytes: usize,
) -> Result<(), LexError>
    requires room { at + length name.now < 2 ^ 64 }
    requires text { IsUtf8 name.now }
    ensures ok { OnOk result (tokens.new.items
        ≡ tokens.old.items ++ token (kind_of_name name.now) at (length name.now) line 0 name.now
        ∷ []) }
    ensures err { IfErr result (λ e. e ≡ LexError.NoMemory) }
    ensures kept { OnErr result (tokens.new.items ≡ tokens.old.items) }
{
    let spelled = text_of(name);
    let text = Bytes::of_text(alloc, spelled)?;
    let token = Token {
        kind: kind_of_name(spelled),
        start: at,
        end: at + name.len(),
        line,
        value: 0,
        text,
    };
    push(tokens, token, bytes)
}

/// Puts the token of a number at the end. The errors are that it is too large, and that memory ran out.
#[inline(always)]
fn put_number(
    alloc: Global,
    tokens: &mut Vec<Token>,
    digits: &[u8],
    at: usize,
    line: u64,
    bytes: usize,
) -> Result<(), LexError>
    requires room { at + length digits.now < 2 ^ 64 }
    ensures ok { OnOk result
        ((t : Token) × (Ok t ≡ number_of digits.now at (length digits.now) line)
        × (tokens.new.items ≡ tokens.old.items ++ t ∷ [])) }
    ensures err { IfErr result
        (λ e. LexFails e (number_of digits.now at (length digits.now) line)) }
    ensures token { IfErr result (λ e. e ≡ LexError.NoMemory
        → (t : Token) × (Ok t ≡ number_of digits.now at (length digits.now) line)) }
    ensures kept { OnErr result (tokens.new.items ≡ tokens.old.items) }
{
    match value(digits) {
        Some(value) => push(
            tokens,
            plain(alloc, Kind::Number, at, digits.len(), line, value),
            bytes,
        ),
        None => Err(LexError::NumberTooLarge { line }),
    }
}

/// Puts the token of what stands at the front of the bytes after the others, where it has one, and answers how many bytes it has.
#[inline(always)]
pub fn put_front(
    alloc: Global,
    tokens: &mut Vec<Token>,
    front: Front,
    bytes: &[u8],
    at: usize,
    line: u64,
) -> Result<usize, LexError>
    requires some { 0 < length bytes.now }
    requires room { at + length bytes.now < 2 ^ 64 }
    requires front { front ≡ front_of (slice_index bytes.now 0) (drop 1 bytes.now) }
    requires fits { FitsIn front (length bytes.now) }
    ensures ok { IfOk result (λ n. (t : Option Token) × (cut_front bytes.now line at ≡ Ok (n, t))
        × (tokens.new.items ≡ tokens.old.items ++ option_to_list t)) }
    ensures err { IfErr result (λ e. LexFails e (cut_front bytes.now line at)) }
    ensures kept { OnErr result (tokens.new.items ≡ tokens.old.items) }
    ensures token { IfErr result
        (λ e. e ≡ LexError.NoMemory → HasToken (cut_front bytes.now line at)) }
    ensures fits { IfOk result (λ n. (0 < n) × (n ≤ length bytes.now)) }
{
    match front {
        Front::Blank(len) => Ok(len),
        Front::Name(len) => {
            put_word(alloc, tokens, &bytes[..len], at, line, bytes.len())?;
            Ok(len)
        }
        Front::Number(len) => {
            put_number(alloc, tokens, &bytes[..len], at, line, bytes.len())?;
            Ok(len)
        }
        Front::Symbol(len, kind) => {
            push(tokens, plain(alloc, kind, at, len, line, 0), bytes.len())?;
            Ok(len)
        }
        Front::Bad => Err(LexError::BadByte { line }),
    }
}

/// Reads the lexeme that the bytes begin with: puts its token after the others, where it has one, and answers how many bytes it
/// has. The bytes begin at index `at` of the text, on this line.
pub fn read_lexeme(
    alloc: Global,
    tokens: &mut Vec<Token>,
    bytes: &[u8],
    at: usize,
    line: u64,
) -> Result<usize, LexError>
    requires some { 0 < length bytes.now }
    requires room { at + length bytes.now < 2 ^ 64 }
    ensures ok { IfOk result (λ n. (t : Option Token) × (cut_front bytes.now line at ≡ Ok (n, t))
        × (tokens.new.items ≡ tokens.old.items ++ option_to_list t)) }
    ensures err { IfErr result (λ e. LexFails e (cut_front bytes.now line at)) }
    ensures fits { IfOk result (λ n. (0 < n) × (n ≤ length bytes.now)) }
{
    let [first, rest @ ..] = bytes else {
        unreachable!()
    };
    put_front(alloc, tokens, front_at(*first, rest), bytes, at, line)
}

/// The line after a byte.
pub fn line_past(line: u64, byte: u8) -> u64
    requires { line < 2 ^ 64 - 1 }
    ensures { result ≡ line_after line byte }
{
    if byte == b'\n' { line + 1 } else { line }
}

/// The tokens of a text, in the order of the text. A byte that begins no lexeme is `BadByte`, a
/// number above `LARGEST` is `NumberTooLarge`; the first fault in the text is answered, with its line.
pub fn tokens(alloc: Global, text: &[u8]) -> Result<Vec<Token>, LexError>
    ensures tokens { LexReturns (λ v. v.items) result (tokens_of text.now) }
    ensures small { IfOk result (λ v. All (λ t. t.value ≤ largest) v.items) }
    ensures texts { IfOk result (λ v. All (λ t. IsUtf8 t.text) v.items) }
{
    let mut tokens = Vec::new(alloc);
    let mut at = 0;
    let mut line = 1u64;
    'lexemes: while at < text.len() {
        let len = read_lexeme(alloc, &mut tokens, &text[at..], at, line)?;
        line = line_past(line, text[at]);
        at += len;
    }
    Ok(tokens)
}
