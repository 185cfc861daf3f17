// What stands at the front of a text.
ghost use Rattle.std.specs.Prelude.{◌≡◌, ◌<◌, ◌^◌, ◌+◌, length};
ghost use Rattle.std.specs.Bool.{OnTrue};
ghost use Rattle.nk_lex.specs.Lex.{FitsIn, front_of, single_of, starts_with_byte, symbol_of};

use crate::Kind;
use crate::classes::{digits_len, is_digit, is_name_start, is_white, line_len, name_len};

/// A lexeme, by how many bytes it has.
#[derive(Clone, Copy, Debug, PartialEq, Eq)]
pub enum Front {
    Blank(usize),
    Name(usize),
    Number(usize),
    Symbol(usize, Kind),
    Bad,
}

/// The lexeme at the front, as long as it can be.
#[inline(always)]
pub fn front_at(first: u8, rest: &[u8]) -> Front
    requires { length rest.now < 2 ^ 63 }
    ensures front { result ≡ front_of first rest.now }
    ensures fits { FitsIn result (length rest.now + 1) }
{
    if is_white(first) {
        Front::Blank(1)
    } else if first == b'#' {
        Front::Blank(line_len(rest) + 1)
    } else if is_name_start(first) {
        Front::Name(name_len(rest) + 1)
    } else if is_digit(first) {
        Front::Number(digits_len(rest) + 1)
    } else {
        symbol(first, rest)
    }
}

#[inline(always)]
fn symbol(first: u8, rest: &[u8]) -> Front
    ensures symbol { result ≡ symbol_of first rest.now }
    ensures fits { FitsIn result (length rest.now + 1) }
{
    match first {
        b'=' if starts_with(b'>', rest) => Front::Symbol(2, Kind::FatArrow),
        b'=' => Front::Symbol(1, Kind::Equal),
        b':' if starts_with(b'=', rest) => Front::Symbol(2, Kind::Assign),
        b':' => Front::Symbol(1, Kind::Colon),
        b'-' if starts_with(b'>', rest) => Front::Symbol(2, Kind::Arrow),
        b'-' => Front::Bad,
        b'.' if starts_with(b'.', rest) => Front::Symbol(2, Kind::DotDot),
        b'.' => Front::Bad,
        _ => match single(first) {
            Some(kind) => Front::Symbol(1, kind),
            None => Front::Bad,
        },
    }
}

/// The kind of a symbol of one byte with which no longer symbol begins.
pub fn single(byte: u8) -> Option<Kind>
    ensures { result ≡ single_of byte }
{
    match byte {
        b'+' => Some(Kind::Plus),
        b';' => Some(Kind::Semicolon),
        b'*' => Some(Kind::Star),
        b'~' => Some(Kind::Tilde),
        b'(' => Some(Kind::OpenParen),
        b')' => Some(Kind::CloseParen),
        b',' => Some(Kind::Comma),
        b'/' => Some(Kind::Slash),
        b'[' => Some(Kind::OpenBracket),
        b']' => Some(Kind::CloseBracket),
        _ => None,
    }
}

fn starts_with(byte: u8, rest: &[u8]) -> bool
    ensures first { result ≡ starts_with_byte byte rest.now }
    ensures some { OnTrue result (0 < length rest.now) }
{
    match rest {
        [first, ..] => *first == byte,
        [] => false,
    }
}
