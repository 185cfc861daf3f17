//! The texts that rows write.
use crate::row::Fault;
use std::alloc::Global;

/// A text and the name by which it is used.
#[derive(Drop)]
pub(crate) struct Named {
    pub(crate) name: String,
    pub(crate) text: Vec<u8>,
}

/// The number of a piece that is counted up, and the one before.
#[derive(Clone, Copy)]
struct Place {
    number: u64,
    before: u64,
}

/// The bytes of a line of a text; nothing where it is none.
pub(crate) fn piece_of(
    alloc: Global,
    texts: &[Named],
    line: &str,
) -> Result<Option<Vec<u8>>, Fault> {
    let mut bytes = Vec::new(alloc);
    if let Some(words) = line.strip_prefix('|') {
        put_words(alloc, &mut bytes, words, None)?;
        bytes.extend_from_slice(b"\n")?;
    } else if let Some(words) = line.strip_prefix('.') {
        put_words(alloc, &mut bytes, words, None)?;
    } else if let Some(name) = line.strip_prefix('$') {
        put_named(&mut bytes, texts, name)?;
    } else if let Some(rest) = line.strip_prefix('*') {
        put_repeated(alloc, &mut bytes, rest)?;
    } else if let Some(rest) = line.strip_prefix('@') {
        put_counted(alloc, &mut bytes, rest)?;
    } else {
        return Ok(None);
    }
    Ok(Some(bytes))
}

/// Puts words after the text, by what their signs stand for.
pub(crate) fn put_word(alloc: Global, text: &mut Vec<u8>, word: &str) -> Result<(), Fault> {
    put_words(alloc, text, word, None)
}

/// Puts words after the text, by what their signs stand for. Where a place is given, its numbers may be written.
fn put_words(
    alloc: Global,
    text: &mut Vec<u8>,
    words: &str,
    place: Option<Place>,
) -> Result<(), Fault> {
    let mut is_sign = false;
    for byte in words.as_bytes() {
        if is_sign {
            put_sign(alloc, text, *byte, place)?;
            is_sign = false;
        } else if *byte == b'\\' {
            is_sign = true;
        } else {
            text.extend_from_slice(&[*byte])?;
        }
    }
    if is_sign {
        Err(Fault::Malformed)
    } else {
        Ok(())
    }
}

/// Puts what a letter after a backslash stands for.
fn put_sign(
    alloc: Global,
    text: &mut Vec<u8>,
    letter: u8,
    place: Option<Place>,
) -> Result<(), Fault> {
    match (letter, place) {
        (b'n', _) => text.extend_from_slice(b"\n")?,
        (b'r', _) => text.extend_from_slice(b"\r")?,
        (b't', _) => text.extend_from_slice(b"\t")?,
        (b's', _) => text.extend_from_slice(b" ")?,
        (b'\\', _) => text.extend_from_slice(b"\\")?,
        (b'i', Some(place)) => put_number(alloc, text, place.number)?,
        (b'p', Some(place)) => put_number(alloc, text, place.before)?,
        _ => return Err(Fault::Malformed),
    }
    Ok(())
}

/// Puts a number.
fn put_number(alloc: Global, text: &mut Vec<u8>, number: u64) -> Result<(), Fault> {
    let digits = format!(in alloc; "{number}")?;
    text.extend_from_slice(digits.as_bytes())?;
    Ok(())
}

/// Puts the text of a name from above.
fn put_named(text: &mut Vec<u8>, texts: &[Named], name: &str) -> Result<(), Fault> {
    for named in texts {
        if named.name.as_str() == name {
            text.extend_from_slice(named.text.as_slice())?;
            return Ok(());
        }
    }
    Err(Fault::Malformed)
}

/// Puts words so often.
fn put_repeated(alloc: Global, text: &mut Vec<u8>, rest: &str) -> Result<(), Fault> {
    let Some((times, words)) = rest.split_once(' ') else {
        return Err(Fault::Malformed);
    };
    let times = number_of(times)?;
    if times == 0 {
        return Err(Fault::Malformed);
    }
    let mut bytes = Vec::new(alloc);
    put_words(alloc, &mut bytes, words, None)?;
    for _ in 0..times {
        text.extend_from_slice(bytes.as_slice())?;
    }
    Ok(())
}

/// Puts words for each number.
fn put_counted(alloc: Global, text: &mut Vec<u8>, rest: &str) -> Result<(), Fault> {
    let Some((first, rest)) = rest.split_once(' ') else {
        return Err(Fault::Malformed);
    };
    let Some((last, rest)) = rest.split_once(' ') else {
        return Err(Fault::Malformed);
    };
    let Some((step, words)) = rest.split_once(' ') else {
        return Err(Fault::Malformed);
    };
    let first = number_of(first)?;
    let last = number_of(last)?;
    let step = number_of(step)?;
    if first > last || step == 0 {
        return Err(Fault::Malformed);
    }
    for number in first..=last {
        if (number - first).checked_rem(step) == Some(0) {
            let before = number.saturating_sub(step);
            put_words(alloc, text, words, Some(Place { number, before }))?;
        }
    }
    Ok(())
}

/// The number of a word of digits alone.
pub(crate) fn number_of(word: &str) -> Result<u64, Fault> {
    if !word.as_bytes().iter().all(|byte| byte.is_ascii_digit()) {
        return Err(Fault::Malformed);
    }
    match word.parse::<u64>() {
        Ok(number) => Ok(number),
        Err(_) => Err(Fault::Malformed),
    }
}
