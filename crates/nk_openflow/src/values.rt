//! Values and masks of match fields, put after a text.
ghost use Rattle.std.specs.Prelude.{◌≡◌, ◌++◌, ◌≤◌, OnOk};
ghost use Rattle.nk_openflow.specs.Values as specs;

use crate::hexadecimal::{push_eight, push_four, push_sixteen, push_two};
use crate::match_field::{MatchField, Notation};
use crate::numbers::push_number;
use std::alloc::AllocError;

/// Puts a value of a match field.
pub(crate) fn push_value(out: &mut Vec<u8>, field: MatchField, n: u64) -> Result<(), AllocError>
    ensures { OnOk result (out.new.items ≡ out.old.items ++ specs.value_text field n) }
{
    match field.notation() {
        Notation::Dotted => push_dotted(out, n as u128),
        Notation::Colons => push_colons(out, n as u128),
        Notation::Number => push_number(out, field_number(field, n)),
    }
}

/// The number that stands for a value.
fn field_number(field: MatchField, n: u64) -> u64
    ensures { result ≡ specs.header_number field n }
{
    match field {
        MatchField::NwTos => 4 * (n % 64),
        MatchField::VlanVid => 4096 + n % 4096,
        _ => n,
    }
}

/// Puts the mask of a match field whose last bits are free.
pub(crate) fn push_mask(out: &mut Vec<u8>, field: MatchField, free: u8) -> Result<(), AllocError>
    requires { free ≤ 64 }
    ensures { OnOk result (out.new.items ≡ out.old.items ++ specs.mask_text field free) }
{
    let mask = mask_of(field.width(), free);
    match field.notation() {
        Notation::Dotted => push_dotted(out, mask),
        Notation::Colons => push_colons(out, mask),
        Notation::Number => {
            out.extend_from_slice(b"0x")?;
            push_hexadecimal(out, field.width(), mask)
        }
    }
}

/// The number of so many bits of which the last ones are 0 and the others 1.
fn mask_of(width: u8, free: u8) -> u128
    requires width { width ≤ 64 }
    requires free { free ≤ 64 }
    ensures { result ≡ specs.mask_value width free }
{
    let all = 1u128 << (width as u32);
    let low = 1u128 << (free as u32);
    all.saturating_sub(low)
}

/// Puts a number in the hexadecimal digits of so many bits.
fn push_hexadecimal(out: &mut Vec<u8>, width: u8, n: u128) -> Result<(), AllocError>
    ensures { OnOk result (out.new.items ≡ out.old.items ++ specs.hexadecimal width n) }
{
    if width <= 16 {
        push_four(out, n)
    } else if width <= 32 {
        push_eight(out, n)
    } else {
        push_sixteen(out, n)
    }
}

/// Puts the last four bytes of a number with dots between them.
fn push_dotted(out: &mut Vec<u8>, n: u128) -> Result<(), AllocError>
    ensures { OnOk result (out.new.items ≡ out.old.items ++ specs.dotted n) }
{
    push_number(out, (n / 16_777_216 % 256) as u64)?;
    out.push(b'.')?;
    push_number(out, (n / 65_536 % 256) as u64)?;
    out.push(b'.')?;
    push_number(out, (n / 256 % 256) as u64)?;
    out.push(b'.')?;
    push_number(out, (n % 256) as u64)
}

/// Puts the last six bytes of a number, each of two hexadecimal digits, with colons between them.
fn push_colons(out: &mut Vec<u8>, n: u128) -> Result<(), AllocError>
    ensures { OnOk result (out.new.items ≡ out.old.items ++ specs.colons n) }
{
    push_three(out, n / 16_777_216)?;
    out.push(b':')?;
    push_three(out, n)
}

/// Puts the last three bytes so.
fn push_three(out: &mut Vec<u8>, n: u128) -> Result<(), AllocError>
    ensures { OnOk result (out.new.items ≡ out.old.items ++ specs.three_bytes n) }
{
    push_two(out, n / 65_536)?;
    out.push(b':')?;
    push_two(out, n / 256)?;
    out.push(b':')?;
    push_two(out, n)
}
