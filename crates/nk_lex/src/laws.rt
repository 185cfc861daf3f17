//! What holds of every token that a text gives, also of those before a fault.
ghost use Rattle.nk_lex.specs.Joined.{JoinsTexts, MovesLexemes};
ghost use Rattle.nk_lex.specs.Spelling.{CutsLexemes, NamesAreNames};
ghost use Rattle.nk_lex.specs.Spans.{
  LinesCount,
  NamesAreSlices,
  NumbersAreDigits,
  SpansAscend,
  ValuesAreSmall,
};

/// No value is above `LARGEST`.
pub fn values_are_small()
    ensures { ValuesAreSmall }
{}

/// A token has at least one byte, is within the text, and ends where the next one begins or before.
pub fn spans_ascend()
    ensures { SpansAscend }
{}

/// A name's text is what stands in its span.
pub fn a_name_is_what_stands_there()
    ensures { NamesAreSlices }
{}

/// The line of a token is 1 plus the line feeds before its start.
pub fn a_line_is_one_more_than_the_line_feeds_before()
    ensures { LinesCount }
{}

/// The value of a number is the decimal value of the digits in its span.
pub fn a_number_has_the_value_of_its_digits()
    ensures { NumbersAreDigits }
{}

/// A text of lexemes none of which makes the one before it longer is cut into exactly their tokens.
pub fn a_text_of_lexemes_is_cut_into_them()
    ensures { CutsLexemes }
{}

/// Each name of a text is a valid one: a letter or `_`, then letters, digits and `_`, and no keyword.
pub fn a_name_is_one()
    ensures { NamesAreNames }
{}

/// The tokens of a text, a line feed and a second text are the tokens of the first, and after them those of the second. Their
/// lines are moved on by the first text's line feeds and one, their spans by its bytes and one. Or the answer is the first
/// fault of both, on its line.
pub fn texts_are_joined()
    ensures { JoinsTexts }
{}

/// The tokens of lexemes, moved on by lines and bytes, are the tokens of the lexemes from a later line and index on.
pub fn lexemes_are_moved()
    ensures { MovesLexemes }
{}
