//! A number among the words.
ghost use Rattle.std.specs.Prelude.{◌≡◌};
ghost use Rattle.std.specs.Char.{is_ascii_digit};
ghost use Rattle.std.specs.List.{list_all};
ghost use Rattle.nk_words.specs.Number.{number_between, number_of_word};

/// The number, where the word is digits alone and the value is at most the largest one.
fn number(word: &str, largest: u64) -> Option<u64>
    ensures { result ≡ number_of_word largest word.now }
{
    if !is_digits(word.as_bytes()) {
        return None;
    }
    match word.parse::<u64>() {
        Ok(value) if value <= largest => Some(value),
        _ => None,
    }
}

/// The number, where the word is digits alone and the value is at least the least one and at most the largest one.
pub(crate) fn number_from(word: &str, least: u64, largest: u64) -> Option<u64>
    ensures { result ≡ number_between least largest word.now }
{
    match number(word, largest) {
        Some(value) if least <= value => Some(value),
        _ => None,
    }
}

/// Whether all bytes are digits.
fn is_digits(word: &[u8]) -> bool
    ensures { result ≡ list_all is_ascii_digit word.now }
{
    word.iter().all(|byte| byte.is_ascii_digit())
}
