//! Laws: what holds of every text.
ghost use Rattle.nk_notation.specs.Laws.{AddressesAreReadBack, LexemesAreTheText, NumbersComeBack, PrefixesAreReadBack, RangesAreReadBack, TextsWithoutFormsStay, ValuesAreReadBack};

/// The lexemes of a text are its bytes: none is lost, and none comes to it.
pub fn lexemes_are_the_text()
    ensures { LexemesAreTheText }
{}

/// A text without any of the forms stays as it is.
pub fn texts_without_forms_stay()
    ensures { TextsWithoutFormsStay }
{}

/// The IPv4 address that a number is written as is read as the number.
pub fn addresses_are_read_back()
    ensures { AddressesAreReadBack }
{}

/// A value that `out` writes in the form of its kind is read by `in` as the value.
pub fn values_are_read_back()
    ensures { ValuesAreReadBack }
{}

/// A range that `out` writes is read by `in` as the range.
pub fn ranges_are_read_back()
    ensures { RangesAreReadBack }
{}

/// A prefix that `out` writes is read by `in` as the range of its addresses, and in a table text as the prefix.
pub fn prefixes_are_read_back()
    ensures { PrefixesAreReadBack }
{}

/// A word that `in` leaves as it is comes back as it was from what `out` makes of it as a value.
pub fn numbers_come_back()
    ensures { NumbersComeBack }
{}
