//! The forms in which numbers are written.
ghost use Rattle.std.specs.Prelude.{◌≡◌, ◌==◌, ◌+◌, count_by, ◌-◌, ◌<◌, ◌≤◌, ◌^◌, drop, length, IfSome, Some, None};
ghost use Rattle.nk_lex.specs.Lex.{largest};
ghost use Rattle.std.specs.List.{list_all, list_any};
ghost use Rattle.nk_number_forms.specs.Forms.{address_of, atom_of, before_first, after_first, address_block_size, combined, first_byte, hardware_of, hexadecimal_of, is_coloned, is_digit_or_dot, is_dotted, is_hex_or_colon, is_hexadecimal, last_byte, number_or, first_place, place_of_dots, three_pairs};
ghost use Rattle.nk_number_forms.specs.Numbers.{is_hex};

use crate::fault::Cause;
use crate::numbers::{hex_number, is_digit, is_hex, octet, pair_of};
use nk_lex::LARGEST;

/// What a run of bytes is.
#[derive(Clone, Copy)]
pub enum Atom {
    /// No form: it is kept.
    Kept,
    /// A number in one of the forms.
    Number(u64),
    /// Malformed.
    Faulty(Cause),
}

/// How many bytes stand before the first such byte, or in all.
#[tactic(auto, unfolding(crate::specs::Forms::first_place))]
pub fn place_of(byte: u8, text: &[u8]) -> usize
    ensures place { result ≡ first_place byte text.now }
    ensures within { result ≤ length text.now }
{
    text.iter().take_while(|b| **b != byte).count()
}

/// The bytes before the first such byte and those after it, where none is all and nothing.
#[tactic(auto, unfolding(crate::specs::Forms::before_first, crate::specs::Forms::after_first))]
pub fn around_first(byte: u8, text: &[u8]) -> (&[u8], &[u8])
    ensures before { result.0.now ≡ before_first byte text.now }
    ensures after { result.1.now ≡ after_first byte text.now }
{
    let place = place_of(byte, text);
    if place < text.len() {
        (&text[..place], &text[place + 1..])
    } else {
        (text, &text[place..])
    }
}

/// The number of the IPv4 address that the text writes, below 2^32; `None` where the text is no IPv4 address.
#[tactic(auto, unfolding(crate::specs::Forms::address_of))]
pub fn address_of(text: &[u8]) -> Option<u64>
    ensures value { result ≡ address_of text.now }
    ensures small { IfSome result (λ n. n < 2 ^ 32) }
{
    let (first, text) = around_first(b'.', text);
    let first = octet(first)?;
    let (second, text) = around_first(b'.', text);
    let second = octet(second)?;
    let (third, fourth) = around_first(b'.', text);
    let third = octet(third)?;
    let fourth = octet(fourth)?;
    Some(first * 16_777_216 + second * 65_536 + third * 256 + fourth)
}

/// The number of three bytes that are written as pairs.
#[tactic(auto, unfolding(crate::specs::Forms::three_pairs))]
fn three_pairs(first: &[u8], second: &[u8], third: &[u8]) -> Option<u64>
    ensures value { result ≡ three_pairs first.now second.now third.now }
    ensures small { IfSome result (λ n. n < 2 ^ 32) }
{
    let first = pair_of(first)?;
    let second = pair_of(second)?;
    let third = pair_of(third)?;
    Some(first * 65_536 + second * 256 + third)
}

/// The number of the hardware address that the text writes.
#[tactic(auto, unfolding(crate::specs::Forms::hardware_of))]
fn hardware_of(text: &[u8]) -> Option<u64>
    ensures { result ≡ hardware_of text.now }
{
    let (first, text) = around_first(b':', text);
    let (second, text) = around_first(b':', text);
    let (third, text) = around_first(b':', text);
    let (fourth, text) = around_first(b':', text);
    let (fifth, sixth) = around_first(b':', text);
    combined(
        three_pairs(first, second, third),
        three_pairs(fourth, fifth, sixth),
    )
}

/// The number of two halves of 24 binary digits.
#[tactic(auto, unfolding(crate::specs::Forms::combined))]
fn combined(high: Option<u64>, low: Option<u64>) -> Option<u64>
    requires high { IfSome high (λ n. n < 2 ^ 32) }
    requires low { IfSome low (λ n. n < 2 ^ 32) }
    ensures { result ≡ combined high low }
{
    match (high, low) {
        (Some(high), Some(low)) => Some(high * 16_777_216 + low),
        _ => None,
    }
}

/// The first byte, 0 where there is none.
#[tactic(auto, unfolding(crate::specs::Forms::first_byte))]
pub fn first_of(text: &[u8]) -> u8
    ensures { result ≡ first_byte text.now }
{
    match text {
        [first, ..] => *first,
        [] => 0,
    }
}

/// The last byte, 0 where there is none.
#[tactic(auto, unfolding(crate::specs::Forms::last_byte))]
pub fn last_of(text: &[u8]) -> u8
    ensures { result ≡ last_byte text.now }
{
    if text.is_empty() {
        0
    } else {
        text[text.len() - 1]
    }
}

/// Whether all bytes are digits and dots.
#[tactic(auto, unfolding(crate::specs::Forms::is_digit_or_dot))]
fn all_digits_and_dots(text: &[u8]) -> bool
    ensures { result ≡ list_all is_digit_or_dot text.now }
{
    text.iter().all(|b| is_digit(*b) || *b == b'.')
}

/// Whether a byte is a dot.
fn has_dot(text: &[u8]) -> bool
    ensures { result ≡ list_any (λ b. b == 46) text.now }
{
    text.iter().any(|b| *b == b'.')
}

/// Whether the text is meant as an IPv4 address.
#[tactic(auto, unfolding(crate::specs::Forms::is_dotted))]
pub fn is_dotted(text: &[u8]) -> bool
    ensures { result ≡ is_dotted text.now }
{
    is_digit(first_of(text))
        && is_digit(last_of(text))
        && has_dot(text)
        && all_digits_and_dots(text)
}

/// Whether all bytes are hexadecimal digits and colons.
#[tactic(auto, unfolding(crate::specs::Forms::is_hex_or_colon))]
fn all_hex_and_colons(text: &[u8]) -> bool
    ensures { result ≡ list_all is_hex_or_colon text.now }
{
    text.iter().all(|b| is_hex(*b) || *b == b':')
}

/// How many colons stand in it.
pub fn colons(text: &[u8]) -> usize
    ensures { result ≡ count_by (λ b. b == 58) text.now }
{
    text.iter().filter(|b| **b == b':').count()
}

/// Whether all bytes are hexadecimal digits.
fn all_hex(text: &[u8]) -> bool
    ensures { result ≡ list_all is_hex text.now }
{
    text.iter().all(|b| is_hex(*b))
}

/// Whether the text is meant as a hardware address.
#[tactic(auto, unfolding(crate::specs::Forms::is_coloned))]
fn is_coloned(text: &[u8]) -> bool
    ensures { result ≡ is_coloned text.now }
{
    is_hex(first_of(text)) && is_hex(last_of(text)) && colons(text) > 1 && all_hex_and_colons(text)
}

/// Whether the text is meant as a hexadecimal number.
#[tactic(auto, unfolding(crate::specs::Forms::is_hexadecimal))]
fn is_hexadecimal(text: &[u8]) -> bool
    ensures { result ≡ is_hexadecimal text.now }
{
    match text {
        [b'0', b'x', ..] => true,
        _ => false,
    }
}

/// The number with these hexadecimal digits after `0x`.
#[tactic(auto, unfolding(crate::specs::Forms::hexadecimal_of))]
fn hexadecimal_of(digits: &[u8]) -> Atom
    ensures { result ≡ hexadecimal_of digits.now }
{
    if digits.is_empty() || !all_hex(digits) {
        return Atom::Faulty(Cause::Hexadecimal);
    }
    let value = hex_number(digits);
    if value <= LARGEST {
        Atom::Number(value)
    } else {
        Atom::Faulty(Cause::TooLarge)
    }
}

/// The number, or the fault of what is no number.
fn number_or(cause: Cause, number: Option<u64>) -> Atom
    ensures { result ≡ number_or cause number }
{
    match number {
        Some(number) => Atom::Number(number),
        None => Atom::Faulty(cause),
    }
}

/// What a run of bytes without `..` and `/` is.
#[tactic(auto, unfolding(crate::specs::Forms::atom_of))]
pub fn atom_of(text: &[u8]) -> Atom
    ensures { result ≡ atom_of text.now }
{
    if is_dotted(text) {
        number_or(Cause::Address, address_of(text))
    } else if is_coloned(text) {
        number_or(Cause::HardwareAddress, hardware_of(text))
    } else if is_hexadecimal(text) {
        hexadecimal_of(dropped(text, 2))
    } else {
        Atom::Kept
    }
}

/// How many addresses have the same first binary digits, so many of 32.
pub fn block_size(length: u64) -> u64
    requires { length ≤ 32 }
    ensures size { result ≡ address_block_size length }
    ensures some { 0 < result }
    ensures most { result ≤ 2 ^ 32 }
{
    1 << (32 - length)
}

/// How many bytes stand before the first `..`, or in all.
#[tactic(auto, unfolding(crate::specs::Forms::place_of_dots, crate::specs::Forms::first_byte))]
pub fn place_of_dots(text: &[u8]) -> usize
    ensures place { result ≡ place_of_dots text.now }
    ensures within { result ≤ length text.now }
{
    let mut at = 0;
    'bytes: while at < text.len() {
        if text[at] == b'.' && first_of(&text[at + 1..]) == b'.' {
            return at;
        }
        at += 1;
    }
    at
}

/// All but so many bytes at the front, or none.
pub fn dropped(text: &[u8], count: usize) -> &[u8]
    ensures { result.now ≡ drop count text.now }
{
    if count <= text.len() {
        &text[count..]
    } else {
        &[]
    }
}
