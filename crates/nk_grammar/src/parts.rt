//! Names, numbers and link ends, read from tokens.
ghost use Rattle.std.specs.Prelude.{◌≡◌, IfOk};
ghost use Rattle.nk_grammar.specs.FileMachine.{name_in};
ghost use Rattle.nk_grammar.specs.Machine.{number_in, quad_step};
ghost use Rattle.nk_grammar.specs.Terminal.{is_link_sign, is_colon_terminal, is_dots, terminal_of};

use nk_lex::{Ident, Kind, Number, Quad, QuadNext, Token, ident_of};
use std::alloc::{AllocError, Global};

/// The number that a token is, if it is one.
pub fn number_of(token: &Token) -> Option<Number>
    ensures { result ≡ number_in (terminal_of token.now) }
{
    match token.kind {
        Kind::Number => Some(Number {
            value: token.value,
            line: token.line,
        }),
        _ => None,
    }
}

/// Whether the token is the sign `..`.
pub fn is_dots_token(token: &Token) -> bool
    ensures { result ≡ is_dots (terminal_of token.now) }
{
    match token.kind {
        Kind::DotDot => true,
        _ => false,
    }
}

fn is_colon_token(token: &Token) -> bool
    ensures { result ≡ is_colon_terminal (terminal_of token.now) }
{
    match token.kind {
        Kind::Colon => true,
        _ => false,
    }
}

/// The sign between the two ends of a link: `=>` in a literal, `->` in a declaration.
fn is_between_token(literal: bool, token: &Token) -> bool
    ensures { result ≡ is_link_sign literal (terminal_of token.now) }
{
    match token.kind {
        Kind::FatArrow => literal,
        Kind::Arrow => !literal,
        _ => false,
    }
}

/// The name that a token is, if it is one. The only error is that memory ran out.
pub fn name_of(alloc: Global, token: &Token) -> Result<Option<Ident>, AllocError>
    ensures { IfOk result (λ o. o ≡ name_in (terminal_of token.now)) }
{
    match token.kind {
        Kind::Name => Ok(Some(ident_of(alloc, token)?)),
        _ => Ok(None),
    }
}

/// What one more token makes of a link: `=>` stands between its ends in a literal, `->` in a
/// declaration.
pub fn quad_after(literal: bool, quad: Quad, token: &Token) -> QuadNext
    ensures { result ≡ quad_step literal quad (terminal_of token.now) }
{
    match quad {
        Quad::Start => match number_of(token) {
            Some(a) => QuadNext::Going(Quad::Switch(a)),
            None => QuadNext::Refused,
        },
        Quad::Switch(a) => {
            if is_colon_token(token) {
                QuadNext::Going(Quad::SwitchColon(a))
            } else {
                QuadNext::Refused
            }
        }
        Quad::SwitchColon(a) => match number_of(token) {
            Some(m) => QuadNext::Going(Quad::Port(a, m)),
            None => QuadNext::Refused,
        },
        Quad::Port(a, m) => {
            if is_between_token(literal, token) {
                QuadNext::Going(Quad::Arrow(a, m))
            } else {
                QuadNext::Refused
            }
        }
        Quad::Arrow(a, m) => match number_of(token) {
            Some(b) => QuadNext::Going(Quad::ToSwitch(a, m, b)),
            None => QuadNext::Refused,
        },
        Quad::ToSwitch(a, m, b) => {
            if is_colon_token(token) {
                QuadNext::Going(Quad::ToColon(a, m, b))
            } else {
                QuadNext::Refused
            }
        }
        Quad::ToColon(a, m, b) => match number_of(token) {
            Some(n) => QuadNext::Full(a, m, b, n),
            None => QuadNext::Refused,
        },
    }
}
