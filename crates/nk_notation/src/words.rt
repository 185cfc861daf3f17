//! The words of the command line.
ghost use Rattle.std.specs.Prelude.{◌≡◌, IfOk, map, option_map, string_bytes};
ghost use Rattle.nk_lex.specs.Classes.{is_name_byte};
ghost use Rattle.std.specs.List.{list_all};
ghost use Rattle.nk_notation.specs.Outward.{named_form};
ghost use Rattle.nk_notation.specs.Words.{IsPushed, decimal_form, direction_by, direction_in, direction_of, field_of, fields_of, form_of_kind, is_name};

use crate::cutter::{is_name_byte, is_name_start};
use crate::inward::small_size;
use crate::outward::{Form, NamedField};
use nk_number_forms::{around_first, first_of};
use std::alloc::{AllocError, Global};

/// What the words ask for.
#[derive(Drop)]
pub(crate) enum Asked {
    /// `in`: addresses become numbers.
    In,
    /// `out FIELD=KIND ..`: the values of these fields become addresses.
    Out(Vec<NamedField>),
    /// None of these.
    Usage,
}

/// What the words ask for. The only error is that memory ran out.
#[tactic(auto, unfolding(crate::specs::Words::direction_of, crate::specs::Words::direction_in))]
pub(crate) fn read_words(alloc: Global, words: &[String]) -> Result<Asked, AllocError>
    ensures { IfOk result (λ a. direction_in a
        ≡ direction_of (map (λ w. string_bytes w) words.now)) }
{
    match words {
        [first, rest @ ..] => read_rest(alloc, first, rest),
        [] => Ok(Asked::Usage),
    }
}

/// What the first word and the others ask for. The only error is that memory ran out.
#[tactic(auto, unfolding(crate::specs::Words::direction_by, crate::specs::Words::direction_in, crate::specs::Words::outwards_of))]
fn read_rest(alloc: Global, first: &str, rest: &[String]) -> Result<Asked, AllocError>
    ensures { IfOk result (λ a. direction_in a
        ≡ direction_by first.now (map (λ w. string_bytes w) rest.now)) }
{
    if rest.is_empty() {
        if first == "in" {
            return Ok(Asked::In);
        }
        return Ok(Asked::Usage);
    }
    if first != "out" {
        return Ok(Asked::Usage);
    }
    match fields_of(alloc, rest)? {
        Some(fields) => Ok(Asked::Out(fields)),
        None => Ok(Asked::Usage),
    }
}

/// The fields that all words name, each with its form.
fn fields_of(alloc: Global, words: &[String]) -> Result<Option<Vec<NamedField>>, AllocError>
    ensures { IfOk result (λ r. option_map (λ fs. map named_form fs.items) r
        ≡ fields_of (map (λ w. string_bytes w) words.now)) }
{
    let mut fields = Vec::new(alloc);
    for word in words {
        let pushed = push_field(alloc, &mut fields, word)?;
        if !pushed {
            return Ok(None);
        }
    }
    Ok(Some(fields))
}

/// Puts the field that a word names at the end, and says whether it names one.
#[tactic(auto, unfolding(crate::specs::Words::IsPushed, crate::specs::Words::field_of))]
fn push_field(alloc: Global, fields: &mut Vec<NamedField>, word: &str) -> Result<bool, AllocError>
    ensures { IfOk result (λ named_one.
        IsPushed named_one (map named_form fields.old.items) (map named_form fields.new.items)
        (field_of word.now)) }
{
    let (name, kind) = around_first(b'=', word.as_bytes());
    if !is_name(name) {
        return Ok(false);
    }
    match form_of_kind(kind) {
        Some(form) => {
            let name = Vec::from_slice(alloc, name)?;
            fields.push(NamedField { name, form })?;
            Ok(true)
        }
        None => Ok(false),
    }
}

/// Whether the bytes are a name.
#[tactic(auto, unfolding(crate::specs::Words::is_name))]
fn is_name(text: &[u8]) -> bool
    ensures { result ≡ is_name text.now }
{
    is_name_start(first_of(text)) && all_name_bytes(text)
}

/// Whether all bytes are those of names.
fn all_name_bytes(text: &[u8]) -> bool
    ensures { result ≡ list_all is_name_byte text.now }
{
    text.iter().all(|b| is_name_byte(*b))
}

/// The form of a kind of field.
#[tactic(auto, unfolding(crate::specs::Words::form_of_kind))]
fn form_of_kind(text: &[u8]) -> Option<Form>
    ensures { result ≡ form_of_kind text.now }
{
    if text == b"ipv4".as_slice() {
        Some(Form::Address)
    } else if text == b"mac".as_slice() {
        Some(Form::HardwareAddress)
    } else if text == b"ethertype".as_slice() {
        Some(Form::Hexadecimal)
    } else {
        decimal_form(text)
    }
}

/// The form of a kind of small numbers.
#[tactic(auto, unfolding(crate::specs::Words::decimal_form))]
fn decimal_form(text: &[u8]) -> Option<Form>
    ensures { result ≡ decimal_form text.now }
{
    if text == b"port".as_slice() {
        return Some(Form::Decimal);
    }
    match small_size(text) {
        Some(_) => Some(Form::Decimal),
        None => None,
    }
}
