//! What the words of the command line ask for, and the first of them that is at fault.
ghost use Rattle.std.specs.Prelude.{◌≡◌, ◌≤◌, ◌<◌, ◌+◌, ◌^◌, [], length, map, IfSome, string_bytes};
ghost use Rattle.std.specs.List.{list_any};
ghost use Rattle.nk_field.specs.Texts.{number_upto};
ghost use Rattle.nk_openflow.specs.Words as specs;

use crate::base::base_named;
use crate::match_field::match_field_named;
use crate::refusals::WordFault;
use crate::{Base, MatchField, numbers};

/// The largest number of a switch.
const LARGEST_SWITCH: u64 = 65_535;

/// What is printed of a switch's table.
#[derive(Clone, Copy, PartialEq, Eq, Debug)]
pub enum Part {
    /// Its groups.
    Groups,
    /// Its rows.
    Flows,
}

/// What the first words say.
#[derive(Clone, Copy, Debug)]
pub struct Head {
    /// The number of a switch.
    pub switch: u16,
    /// What is printed of its table.
    pub part: Part,
    /// What every packet is.
    pub base: Base,
    /// How many words this took, 2 or 3; each of the others maps a field.
    pub count: usize,
}

/// What the first words say, if they are `SWITCH groups` or `SWITCH flows`, with or without a base after it.
pub fn head_of(words: &[String]) -> Option<Head>
    ensures is { result ≡ specs.head_of (map (λ w. string_bytes w) words.now) }
    ensures within { IfSome result (λ h. h.count ≤ length words.now) }
{
    match words {
        [switch, part, rest @ ..] => head_with(
            switch_named(switch.as_str()),
            part_named(part.as_str()),
            first_base(rest),
        ),
        _ => None,
    }
}

/// The number of a switch.
fn switch_named(word: &str) -> Option<u16>
    ensures { result ≡ number_upto 65535 word.now }
{
    match numbers::number_upto(LARGEST_SWITCH, word) {
        Some(n) => Some(n as u16),
        None => None,
    }
}

/// The base that the first of these words names.
fn first_base(rest: &[String]) -> Option<Base>
    ensures { result ≡ specs.first_base (map (λ w. string_bytes w) rest.now) }
{
    match rest {
        [word, ..] => base_named(word.as_str()),
        [] => None,
    }
}

/// The head with these parts, where there is a switch and a part.
fn head_with(switch: Option<u16>, part: Option<Part>, base: Option<Base>) -> Option<Head>
    ensures { result ≡ specs.head_with switch part base }
{
    let switch = switch?;
    let part = part?;
    match base {
        Some(base) => Some(Head {
            switch,
            part,
            base,
            count: 3,
        }),
        None => Some(Head {
            switch,
            part,
            base: Base::Any,
            count: 2,
        }),
    }
}

/// The part of a table that a word names.
fn part_named(word: &str) -> Option<Part>
    ensures { result ≡ specs.part_named word.now }
{
    if word == "groups" {
        Some(Part::Groups)
    } else if word == "flows" {
        Some(Part::Flows)
    } else {
        None
    }
}

/// The name before the first `=` of a word; the whole word where it has none.
pub fn name_in(word: &str) -> &str
    ensures { result.now ≡ specs.mapped_name word.now }
{
    match word.split_once('=') {
        Some((name, _)) => name,
        None => word,
    }
}

/// The match field that stands after the first `=` of a word.
pub fn match_field_in(word: &str) -> Option<MatchField>
    ensures { result ≡ specs.match_field_in word.now }
{
    match word.split_once('=') {
        Some((_, name)) => match_field_named(name),
        None => None,
    }
}

/// The number and the fault of the first of these words that is at fault, where the first of them is number `first`.
pub fn first_word_fault(base: Base, first: u64, words: &[String]) -> Option<(u64, WordFault)>
    requires { first + length words.now < 2 ^ 64 }
    ensures { result ≡ specs.first_word_fault base [] first (map (λ w. string_bytes w) words.now) }
{
    for (i, word) in words.iter().enumerate() {
        if let Some(fault) = word_fault(base, &words[..i], word.as_str()) {
            return Some((first + i as u64, fault));
        }
    }
    None
}

/// What is wrong with a word after others.
fn word_fault(base: Base, before: &[String], word: &str) -> Option<WordFault>
    ensures { result ≡ specs.word_fault base (map (λ w. string_bytes w) before.now) word.now }
{
    let Some(field) = match_field_in(word) else {
        return Some(WordFault::NoMatchField);
    };
    if !field.is_in(base) {
        return Some(WordFault::NotInBase);
    }
    if some_clash(field, before) {
        return Some(WordFault::MatchFieldTwice);
    }
    if some_name(name_in(word), before) {
        return Some(WordFault::FieldTwice);
    }
    None
}

/// Whether some of these words has a match field that shares bits with this one.
fn some_clash(field: MatchField, words: &[String]) -> bool
    ensures { result ≡ list_any (specs.clashes field) (map (λ w. string_bytes w) words.now) }
{
    for word in words {
        if clashes(field, word.as_str()) {
            return true;
        }
    }
    false
}

/// Whether some of these words has this name.
fn some_name(name: &str, words: &[String]) -> bool
    ensures { result ≡ list_any (specs.has_name name.now) (map (λ w. string_bytes w) words.now) }
{
    for word in words {
        if name_in(word.as_str()) == name {
            return true;
        }
    }
    false
}

/// Whether the match field of a word shares bits with this one.
fn clashes(field: MatchField, word: &str) -> bool
    ensures { result ≡ specs.clashes field word.now }
{
    match match_field_in(word) {
        Some(other) => field.overlaps(other),
        None => false,
    }
}
