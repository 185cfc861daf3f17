//! Numbers in decimal and hexadecimal digits.
ghost use Rattle.std.specs.Prelude.{◌≡◌, ◌+◌, ◌-◌, ◌<◌, ◌≤◌, ◌&&◌, length, min, nat_lt, IfSome};
ghost use Rattle.std.specs.List.{list_all};
ghost use Rattle.nk_lex.specs.Classes.{is_digit, is_white};
ghost use Rattle.nk_lex.specs.Lex.{largest, value_of};
ghost use Rattle.nk_number_forms.specs.Numbers.{hex_digit, hex_number, hex_value, is_hex, is_numeral, number_within, hexadecimal_pair};

use nk_lex::LARGEST;

/// Whether the byte is a decimal digit.
pub fn is_digit(byte: u8) -> bool
    ensures { result ≡ is_digit byte }
{
    b'0' <= byte && byte <= b'9'
}

/// Whether the byte is white space.
pub fn is_white(byte: u8) -> bool
    ensures { result ≡ is_white byte }
{
    byte == b' ' || byte == b'\t' || byte == b'\r' || byte == b'\n'
}

/// Whether the byte is a hexadecimal digit.
#[tactic(auto, unfolding(crate::specs::Numbers::is_hex))]
pub fn is_hex(byte: u8) -> bool
    ensures { result ≡ is_hex byte }
{
    is_digit(byte) || (b'a' <= byte && byte <= b'f') || (b'A' <= byte && byte <= b'F')
}

/// The value of a hexadecimal digit.
#[tactic(auto, unfolding(crate::specs::Numbers::hex_value))]
fn hex_value(byte: u8) -> u64
    ensures value { result ≡ hex_value byte }
    ensures small { result < 208 }
{
    if is_digit(byte) {
        u64::from(byte - b'0')
    } else if b'a' <= byte {
        u64::from(byte - 87)
    } else {
        u64::from(byte.saturating_sub(55))
    }
}

/// The value of hexadecimal digits; `LARGEST` + 1 for every number above `LARGEST`.
#[tactic(auto, unfolding(crate::specs::Numbers::hex_number))]
pub fn hex_number(digits: &[u8]) -> u64
    ensures { result ≡ min (hex_number digits.now) (largest + 1) }
{
    let mut value = 0;
    for digit in digits {
        let next = value * 16 + hex_value(*digit);
        value = next.min(LARGEST + 1);
    }
    value
}

/// The value of a decimal digit.
fn digit_value(digit: u8) -> u64
    ensures value { result ≡ digit - 48 }
    ensures small { result < 208 }
{
    u64::from(digit.saturating_sub(b'0'))
}

/// The value of decimal digits; `LARGEST` + 1 for every number above `LARGEST`.
fn value(digits: &[u8]) -> u64
    ensures { result ≡ min (value_of digits.now) (largest + 1) }
{
    let mut value = 0;
    for digit in digits {
        let next = value * 10 + digit_value(*digit);
        value = next.min(LARGEST + 1);
    }
    value
}

/// Whether all bytes are decimal digits.
fn all_digits(text: &[u8]) -> bool
    ensures { result ≡ list_all is_digit text.now }
{
    text.iter().all(|b| is_digit(*b))
}

/// Whether the text is decimal digits, at least one, without leading zeros.
#[tactic(auto, unfolding(crate::specs::Numbers::is_numeral))]
fn is_numeral(text: &[u8]) -> bool
    ensures { result ≡ is_numeral text.now }
{
    !text.is_empty() && (text.len() == 1 || text[0] != b'0') && all_digits(text)
}

/// The number of at most `most` that the text writes in decimal digits, without leading zeros.
#[tactic(auto, using(crate::proofs::Numerals::numeral_within, crate::proofs::Numerals::no_numeral))]
pub fn number_within(most: u64, text: &[u8]) -> Option<u64>
    requires { most ≤ largest }
    ensures value { result ≡ number_within most text.now }
    ensures small { IfSome result (λ n. n ≤ most) }
{
    if !is_numeral(text) {
        return None;
    }
    let value = value(text);
    if value <= most { Some(value) } else { None }
}

/// Whether the text is at most three decimal digits, at least one, without leading zeros.
#[tactic(auto, unfolding(crate::specs::Numbers::is_numeral))]
fn is_short_numeral(text: &[u8]) -> bool
    ensures { result ≡ (nat_lt (length text.now) 4 && is_numeral text.now) }
{
    match text {
        [a] => is_digit(*a),
        [a, b] => *a != b'0' && is_digit(*a) && is_digit(*b),
        [a, b, c] => *a != b'0' && is_digit(*a) && is_digit(*b) && is_digit(*c),
        _ => false,
    }
}

/// The value of at most three decimal digits.
fn short_value(digits: &[u8]) -> u64
    requires { length digits.now ≤ 3 }
    ensures value { result ≡ value_of digits.now }
    ensures small { result ≤ largest }
{
    match digits {
        [] => 0,
        [a] => digit_value(*a),
        [a, b] => digit_value(*a) * 10 + digit_value(*b),
        [a, b, c, ..] => digit_value(*a) * 100 + digit_value(*b) * 10 + digit_value(*c),
    }
}

/// The number of at most 255 that the text writes in decimal digits, without leading zeros.
#[tactic(auto, using(crate::proofs::Numerals::octet_within, crate::proofs::Numerals::no_octet))]
pub(crate) fn octet(text: &[u8]) -> Option<u64>
    ensures value { result ≡ number_within 255 text.now }
    ensures small { IfSome result (λ n. n ≤ 255) }
{
    if !is_short_numeral(text) {
        return None;
    }
    let value = short_value(text);
    if value <= 255 { Some(value) } else { None }
}

/// The byte that two hexadecimal digits write.
#[tactic(auto, unfolding(crate::specs::Numbers::hexadecimal_pair))]
pub fn pair_of(text: &[u8]) -> Option<u64>
    ensures value { result ≡ hexadecimal_pair text.now }
    ensures small { IfSome result (λ n. n < 4096) }
{
    match text {
        [a, b] if is_hex(*a) && is_hex(*b) => Some(hex_value(*a) * 16 + hex_value(*b)),
        _ => None,
    }
}

/// The hexadecimal digit of a number below 16.
#[tactic(auto, unfolding(crate::specs::Numbers::hex_digit))]
pub fn hex_digit(value: u64) -> u8
    requires { value < 16 }
    ensures { result ≡ hex_digit value }
{
    if value < 10 {
        b'0' + value as u8
    } else {
        87 + value as u8
    }
}
