//! Numbers become addresses.
ghost use Rattle.std.specs.Prelude.{◌≡◌, ◌≤◌, ◌<◌, ◌+◌, ◌-◌, ◌^◌, ◌++◌, ◌∷◌, [], IfSome, None, OnOk, Some, codes, drop, length, map, take};
ghost use Rattle.nk_lex.specs.Lex.{largest};
ghost use Rattle.nk_number_forms.specs.Forms.{address_block_size, has_ones_after, place_of_dots};
ghost use Rattle.nk_number_forms.specs.Numbers.{number_within};
ghost use Rattle.nk_notation.specs.Outward.{address_out, byte_out, ends_out, form_of, form_text, held, interval_out, is_block, largest_in_form, length_below, length_of, measured_out, named_form, named_spot, number_out, outward, outward_bytes_sound, prefix_out, range_out, spot_after, spot_beyond, value_out, word_out};

use crate::context::TextKind;
use crate::inward::{is_tables, kind_after, kind_beyond};
use crate::notation::Notation;
use nk_lex::LARGEST;
use nk_number_forms::{
    Stop, around_first, block_size, dropped, first_of, last_of, number_within, place_of,
    place_of_dots, put, put_address, put_hardware, put_hexadecimal, put_number,
};
use std::alloc::AllocError;

/// The form in which the values of a field are written.
#[derive(Clone, Copy)]
pub(crate) enum Form {
    /// An IPv4 address.
    Address,
    /// A hardware address.
    HardwareAddress,
    /// A hexadecimal number of four digits.
    Hexadecimal,
    /// A decimal number.
    Decimal,
}

/// A field with the form of its values.
#[derive(Drop)]
pub(crate) struct NamedField {
    pub(crate) name: Vec<u8>,
    pub(crate) form: Form,
}

/// What stands right before a lexeme.
#[derive(Clone, Copy)]
pub(crate) enum Spot {
    /// None of these.
    Nothing,
    /// The name of a field.
    Name(Form),
    /// The name of a field and a colon.
    Assigned(Form),
    /// The name of a field and a space, which is held.
    Blank(Form),
    /// The name of a field and ` in`, which is held.
    In(Form),
    /// The name of a field and ` in `, which is held.
    Range(Form),
}

/// What is known of the text before a lexeme.
#[derive(Drop)]
pub struct Outward {
    fields: Vec<NamedField>,
    kind: TextKind,
    spot: Spot,
}

impl Outward {
    /// Before the first byte of a text.
    pub(crate) fn new(fields: Vec<NamedField>) -> Outward
        ensures fields { result.fields ≡ fields }
        ensures kind { result.kind ≡ TextKind.Unknown }
        ensures spot { result.spot ≡ Spot.Nothing }
    {
        Outward {
            fields,
            kind: TextKind::Unknown,
            spot: Spot::Nothing,
        }
    }
}

impl Notation for Outward {
    ghost made = { λ o ls. outward (map named_form o.fields.items) o.kind o.spot ls };

    ghost sound = { λ o bs. outward_bytes_sound (map named_form o.fields.items) o.kind o.spot bs };

    fn word(&mut self, out: &mut Vec<u8>, text: &[u8]) -> Result<(), Stop> {
        match put_word(out, is_tables(self.kind), self.spot, text) {
            Ok(()) => {
                self.spot = spot_after(&self.fields, self.spot, text);
                self.kind = kind_after(self.kind, text);
                Ok(())
            }
            Err(AllocError) => Err(Stop::NoMemory),
        }
    }

    #[inline(always)]
    fn byte(&mut self, out: &mut Vec<u8>, byte: u8) -> Result<(), Stop> {
        match put_byte(out, self.spot, byte) {
            Ok(()) => {
                self.spot = spot_beyond(self.spot, byte);
                self.kind = kind_beyond(self.kind, byte);
                Ok(())
            }
            Err(AllocError) => Err(Stop::NoMemory),
        }
    }

    fn note(&mut self, out: &mut Vec<u8>, byte: u8) -> Result<(), Stop> {
        match put_single(out, self.spot, byte) {
            Ok(()) => {
                self.spot = Spot::Nothing;
                Ok(())
            }
            Err(AllocError) => Err(Stop::NoMemory),
        }
    }

    fn end(&mut self, out: &mut Vec<u8>) -> Result<(), Stop> {
        match put(out, held(self.spot)) {
            Ok(()) => Ok(()),
            Err(AllocError) => Err(Stop::NoMemory),
        }
    }
}

/// The form of the field of this name.
#[tactic(auto, unfolding(crate::specs::Outward::form_of))]
fn form_of(fields: &[NamedField], name: &[u8]) -> Option<Form>
    ensures { result ≡ form_of (map named_form fields.now) name.now }
{
    for field in fields {
        if name == field.name.as_slice() {
            return Some(field.form);
        }
    }
    None
}

/// The spot after a word that may be a field's name.
#[tactic(auto, unfolding(crate::specs::Outward::named_spot, crate::specs::Outward::assigned_spot, crate::specs::Outward::name_spot))]
fn named_spot(fields: &[NamedField], text: &[u8]) -> Spot
    ensures { result ≡ named_spot (map named_form fields.now) text.now }
{
    if last_of(text) == b':' {
        match form_of(fields, without_last(text)) {
            Some(form) => Spot::Assigned(form),
            None => Spot::Nothing,
        }
    } else {
        match form_of(fields, text) {
            Some(form) => Spot::Name(form),
            None => Spot::Nothing,
        }
    }
}

/// All bytes but the last.
fn without_last(text: &[u8]) -> &[u8]
    ensures { result.now ≡ take (length text.now - 1) text.now }
{
    if text.is_empty() {
        text
    } else {
        &text[..text.len() - 1]
    }
}

/// The spot after a word.
#[tactic(auto, unfolding(crate::specs::Outward::spot_after))]
fn spot_after(fields: &[NamedField], spot: Spot, text: &[u8]) -> Spot
    ensures { result ≡ spot_after (map named_form fields.now) spot text.now }
{
    match spot {
        Spot::Blank(form) if text == b"in".as_slice() => Spot::In(form),
        _ => named_spot(fields, text),
    }
}

/// The spot after a byte outside words.
#[tactic(auto, unfolding(crate::specs::Outward::spot_beyond))]
fn spot_beyond(spot: Spot, byte: u8) -> Spot
    ensures { result ≡ spot_beyond spot byte }
{
    match spot {
        Spot::Name(form) if byte == b' ' => Spot::Blank(form),
        Spot::In(form) if byte == b' ' => Spot::Range(form),
        _ => Spot::Nothing,
    }
}

/// The bytes that are held.
#[tactic(auto, unfolding(crate::specs::Outward::held))]
fn held(spot: Spot) -> &'static [u8]
    ensures { result.now ≡ held spot }
{
    match spot {
        Spot::Blank(_) => b" ",
        Spot::In(_) => b" in",
        Spot::Range(_) => b" in ",
        _ => b"",
    }
}

/// Puts the bytes that are held at the end, and then these.
fn put_held(out: &mut Vec<u8>, spot: Spot, bytes: &[u8]) -> Result<(), AllocError>
    ensures { OnOk result (out.new.items ≡ out.old.items ++ (held spot ++ bytes.now)) }
{
    put(out, held(spot))?;
    put(out, bytes)
}

/// Puts the bytes that are held at the end, and then this byte.
#[tactic(auto, unfolding(crate::specs::Outward::held))]
fn put_single(out: &mut Vec<u8>, spot: Spot, byte: u8) -> Result<(), AllocError>
    ensures { OnOk result (out.new.items ≡ out.old.items ++ (held spot ++ byte ∷ [])) }
{
    match spot {
        Spot::Nothing => Ok(out.push(byte)?),
        _ => put_held(out, spot, &[byte]),
    }
}

/// Puts a byte outside words at the end, with the bytes that were held before it.
#[tactic(auto, unfolding(crate::specs::Outward::byte_out, crate::specs::Outward::held))]
fn put_byte(out: &mut Vec<u8>, spot: Spot, byte: u8) -> Result<(), AllocError>
    ensures { OnOk result (out.new.items ≡ out.old.items ++ byte_out spot byte) }
{
    match spot {
        Spot::Name(_) | Spot::In(_) if byte == b' ' => Ok(()),
        _ => put_single(out, spot, byte),
    }
}

/// Puts a word at the end, with the bytes that were held before it.
#[tactic(auto, unfolding(crate::specs::Outward::word_out, crate::specs::Outward::held))]
fn put_word(out: &mut Vec<u8>, tables: bool, spot: Spot, text: &[u8]) -> Result<(), AllocError>
    ensures { OnOk result (out.new.items ≡ out.old.items ++ word_out tables spot text.now) }
{
    match spot {
        Spot::Name(form) if first_of(text) == b'=' => put_value(
            out,
            tables,
            form,
            dropped(text, 1),
        ),
        Spot::Assigned(form) if first_of(text) == b'=' => put_assigned(out, form, dropped(text, 1)),
        Spot::Blank(_) if text == b"in".as_slice() => Ok(()),
        Spot::Range(form) => put_range(out, tables, form, text),
        Spot::Nothing => put(out, text),
        _ => put_held(out, spot, text),
    }
}

/// Puts an `=` at the end, and a value that is assigned.
fn put_assigned(out: &mut Vec<u8>, form: Form, text: &[u8]) -> Result<(), AllocError>
    ensures { OnOk result (out.new.items
        ≡ out.old.items ++ (codes "=" ++ number_out form text.now)) }
{
    put(out, b"=")?;
    put_form(out, form, text)
}

/// Puts an `=` at the end, and a value that is tested for.
#[tactic(auto, unfolding(crate::specs::Outward::value_out))]
fn put_value(out: &mut Vec<u8>, tables: bool, form: Form, text: &[u8]) -> Result<(), AllocError>
    ensures { OnOk result (out.new.items
        ≡ out.old.items ++ (codes "=" ++ value_out tables form text.now)) }
{
    put(out, b"=")?;
    if tables && place_of(b'/', text) < text.len() {
        let (value, length) = around_first(b'/', text);
        put_prefix(out, form, value, length)?;
        put(out, b"/")?;
        return put(out, length);
    }
    put_form(out, form, text)
}

/// Puts a number at the end in a form, where the form writes it.
#[tactic(auto, unfolding(crate::specs::Outward::number_out, crate::specs::Outward::text_or))]
fn put_form(out: &mut Vec<u8>, form: Form, text: &[u8]) -> Result<(), AllocError>
    ensures { OnOk result (out.new.items ≡ out.old.items ++ number_out form text.now) }
{
    match number_within(largest_of(form), text) {
        Some(number) => put_number_as(out, form, number),
        None => put(out, text),
    }
}

/// The largest value that a form writes.
#[tactic(auto, unfolding(crate::specs::Outward::largest_in_form))]
fn largest_of(form: Form) -> u64
    ensures value { result ≡ largest_in_form form }
    ensures small { result ≤ largest }
{
    match form {
        Form::Address => 4_294_967_295,
        Form::HardwareAddress => LARGEST,
        Form::Hexadecimal => 65_535,
        Form::Decimal => LARGEST,
    }
}

/// Puts a number at the end in a form.
#[tactic(auto, unfolding(crate::specs::Outward::form_text, crate::specs::Outward::largest_in_form))]
fn put_number_as(out: &mut Vec<u8>, form: Form, number: u64) -> Result<(), AllocError>
    requires { number ≤ largest_in_form form }
    ensures { OnOk result (out.new.items ≡ out.old.items ++ form_text form number) }
{
    match form {
        Form::Address => put_address(out, number),
        Form::HardwareAddress => put_hardware(out, number),
        Form::Hexadecimal => put_hexadecimal(out, number),
        Form::Decimal => put_number(out, number),
    }
}

/// Puts the number before the `/` of a table text's prefix at the end.
#[tactic(auto, unfolding(crate::specs::Outward::prefix_out))]
fn put_prefix(out: &mut Vec<u8>, form: Form, value: &[u8], length: &[u8]) -> Result<(), AllocError>
    ensures { OnOk result (out.new.items ≡ out.old.items ++ prefix_out form value.now length.now) }
{
    match form {
        Form::Address => put_address_of(out, value, length),
        _ => put_measured(out, form, value, length),
    }
}

/// Puts the number of a prefix with a length at the end in a form.
#[tactic(auto, unfolding(crate::specs::Outward::measured_out))]
fn put_measured(
    out: &mut Vec<u8>,
    form: Form,
    value: &[u8],
    length: &[u8],
) -> Result<(), AllocError>
    ensures { OnOk result (out.new.items
        ≡ out.old.items ++ measured_out form value.now (number_within 48 length.now)) }
{
    match number_within(48, length) {
        Some(_) => put_form(out, form, value),
        None => put(out, value),
    }
}

/// Puts the address of a prefix with a length at the end.
#[tactic(auto, unfolding(crate::specs::Outward::address_out))]
fn put_address_of(out: &mut Vec<u8>, value: &[u8], length: &[u8]) -> Result<(), AllocError>
    ensures { OnOk result (out.new.items ≡ out.old.items
        ++ address_out value.now (number_within 4294967295 value.now)
        (number_within 32 length.now)) }
{
    match (
        number_within(4_294_967_295, value),
        number_within(32, length),
    ) {
        (Some(number), Some(digits)) if number % block_size(digits) == 0 => {
            put_address(out, number)
        }
        _ => put(out, value),
    }
}

/// Puts what stands after ` in ` and a field's name at the end, with the ` in `.
#[tactic(auto, unfolding(crate::specs::Outward::range_out))]
fn put_range(out: &mut Vec<u8>, tables: bool, form: Form, text: &[u8]) -> Result<(), AllocError>
    ensures { OnOk result (out.new.items ≡ out.old.items ++ range_out tables form text.now) }
{
    let dots = place_of_dots(text);
    if dots < text.len() {
        return put_ends(out, tables, form, text, dots);
    }
    put(out, b" in ")?;
    put(out, text)
}

/// Puts what stands after ` in ` and a field's name at the end, with the ` in `, where a `..` stands at the place `dots`.
#[tactic(auto, unfolding(crate::specs::Outward::ends_out))]
fn put_ends(
    out: &mut Vec<u8>,
    tables: bool,
    form: Form,
    text: &[u8],
    dots: usize,
) -> Result<(), AllocError>
    requires { dots ≤ length text.now }
    ensures { OnOk result (out.new.items ≡ out.old.items ++ ends_out tables form text.now
        (number_within (largest_in_form form) (take dots text.now))
        (number_within (largest_in_form form) (drop (dots + 2) text.now))) }
{
    let most = largest_of(form);
    match (
        number_within(most, &text[..dots]),
        number_within(most, dropped(text, dots + 2)),
    ) {
        (Some(low), Some(high)) => put_interval(out, tables, form, low, high),
        _ => {
            put(out, b" in ")?;
            put(out, text)
        }
    }
}

/// Puts a range at the end, as a prefix where it is one.
#[tactic(auto, unfolding(crate::specs::Outward::interval_out))]
fn put_interval(
    out: &mut Vec<u8>,
    tables: bool,
    form: Form,
    low: u64,
    high: u64,
) -> Result<(), AllocError>
    requires low { low ≤ largest_in_form form }
    requires high { high ≤ largest_in_form form }
    ensures { OnOk result (out.new.items
        ≡ out.old.items ++ interval_out form low high (length_of tables form low high)) }
{
    match length_of(tables, form, low, high) {
        Some(digits) => {
            put(out, b"=")?;
            put_address(out, low)?;
            put(out, b"/")?;
            put_number(out, digits)
        }
        None => {
            put(out, b" in ")?;
            put_number_as(out, form, low)?;
            put(out, b"..")?;
            put_number_as(out, form, high)
        }
    }
}

/// The length of the prefix that a range is, where it is one.
#[tactic(auto, unfolding(crate::specs::Outward::length_of, crate::specs::Outward::largest_in_form))]
fn length_of(tables: bool, form: Form, low: u64, high: u64) -> Option<u64>
    requires high { high ≤ largest_in_form form }
    ensures { result ≡ length_of tables form low high }
{
    match form {
        Form::Address if !tables => prefix_length(low, high),
        _ => None,
    }
}

/// The largest number of binary digits, up to 32, so that the numbers of the range are those that have the same first ones.
fn prefix_length(low: u64, high: u64) -> Option<u64>
    requires { high < 2 ^ 32 }
    ensures { result ≡ length_below 33 low high }
{
    let mut digits = 33;
    'lengths: while digits > 0 {
        digits -= 1;
        if is_block(low, high, digits) {
            return Some(digits);
        }
    }
    None
}

/// Whether the numbers of the range are those that have the same first binary digits, so many of 32.
fn is_block(low: u64, high: u64, digits: u64) -> bool
    requires high { high < 2 ^ 32 }
    requires digits { digits ≤ 32 }
    ensures { result ≡ is_block low high digits }
{
    let size = block_size(digits);
    low <= high && high - low == size - 1 && low % size == 0
}
