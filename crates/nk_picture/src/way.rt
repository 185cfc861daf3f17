//! The way that words give.
ghost use Rattle.std.specs.Prelude.{◌≡◌, ◌==◌, ◌||◌, IfOk, map, string_bytes};
ghost use Rattle.std.specs.List.{slice_split};
ghost use Rattle.nk_field.specs.Texts.{number_upto as number_of_digits};
ghost use Rattle.nk_picture.specs.Way as specs;
ghost use Rattle.nk_picture.specs.Way.{Added, places_of, way_in};

use std::alloc::{AllocError, Global};

/// A port of a switch.
#[derive(Clone, Copy)]
pub(crate) struct Place {
    pub(crate) switch: u64,
    pub(crate) port: u64,
}

/// What words give.
#[derive(Drop)]
pub(crate) enum Way {
    /// The places of the packets, in order.
    Places(Vec<Place>),
    /// The number of the first word that is no packet, from 1.
    Bad(u64),
}

/// The way of the words: the place of each packet, in order. The words `start` and `history` are left out. The only error is
/// that memory ran out.
pub(crate) fn way_of(alloc: Global, words: &[String]) -> Result<Way, AllocError>
    ensures { IfOk result (λ w. way_in w
        ≡ specs.way_of_words (map (λ w. string_bytes w) words.now)) }
{
    let mut places = Vec::new(alloc);
    for (i, word) in words.iter().enumerate() {
        if !add_places(alloc, &mut places, word.as_str())? {
            return Ok(Way::Bad(i as u64 + 1));
        }
    }
    Ok(Way::Places(places))
}

/// Adds the places that a word gives, and says whether it is a heading or a packet.
fn add_places(alloc: Global, places: &mut Vec<Place>, word: &str) -> Result<bool, AllocError>
    ensures { IfOk result (λ known.
        Added known places.old.items places.new.items (places_of word.now)) }
{
    if is_heading(word) {
        return Ok(true);
    }
    match place_of(alloc, word)? {
        Some(place) => {
            places.push(place)?;
            Ok(true)
        }
        None => Ok(false),
    }
}

/// Whether a word only says what comes after it.
fn is_heading(word: &str) -> bool
    ensures { result ≡ specs.is_heading word.now }
{
    word == "start" || word == "history"
}

/// The place of a packet's text, if it has one.
fn place_of(alloc: Global, word: &str) -> Result<Option<Place>, AllocError>
    ensures { IfOk result (λ p. p ≡ specs.place_of_word word.now) }
{
    let items = items_of(alloc, word)?;
    Ok(place_in(items.as_slice()))
}

/// The items of a text.
fn items_of<'a>(alloc: Global, text: &'a str) -> Result<Vec<&'a str>, AllocError>
    ensures { IfOk result (λ items. map (λ i. i.now) items.items
        ≡ slice_split (λ b. b == 44) text.now) }
{
    text.split(',').collect(alloc)
}

/// The place of a packet's items, if they have one.
fn place_in(items: &[&str]) -> Option<Place>
    ensures { result ≡ specs.place_of_items (map (λ i. i.now) items.now) }
{
    match items {
        [first, second, ..] => {
            match (number_after("sw=", first), number_after("pt=", second)) {
                (Some(switch), Some(port)) => Some(Place { switch, port }),
                _ => None,
            }
        }
        _ => None,
    }
}

/// The number after a front, at most 65535.
fn number_after(front: &str, item: &str) -> Option<u64>
    ensures { result ≡ specs.number_after front.now item.now }
{
    match item.strip_prefix(front) {
        Some(digits) => number_upto(65_535, digits),
        None => None,
    }
}

/// The number that digits alone write, if it is at most `max`.
fn number_upto(max: u64, digits: &str) -> Option<u64>
    ensures { result ≡ number_of_digits max digits.now }
{
    if digits.starts_with('+') {
        return None;
    }
    match digits.parse::<u64>() {
        Ok(n) if n <= max => Some(n),
        _ => None,
    }
}
