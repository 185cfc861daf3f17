//! Laws of reading token by token: it reads the grammar's texts, and no others.
ghost use Rattle.nk_grammar.specs.Machine.{
  ReadsPolicies,
  ReadsOnlyPolicies,
  TakesFronts,
  RefusesOthers,
};
ghost use Rattle.nk_grammar.specs.FileMachine.{ReadsTexts};
ghost use Rattle.nk_grammar.specs.Answer.{AnswersTexts, IsUnique};
ghost use Rattle.nk_grammar.specs.CertifiedAnswer.{AnswersCertifiedTexts, IsUniqueCertified};
ghost use Rattle.nk_grammar.specs.CertifiedProgress.{
  CompletesWritten,
  ReadsCertifiedAsWhole,
  StopsWithCertifiedTexts,
};
ghost use Rattle.nk_grammar.specs.CertifiedText.{ReadsCertificateTexts};
ghost use Rattle.nk_grammar.specs.Fields.{DeclaresFields};
ghost use Rattle.nk_grammar.specs.Moved.{
  CertificatesMove,
  ReadsCertificates,
  ReadsTogether,
  StaysInFront,
};
ghost use Rattle.nk_grammar.specs.Nesting.{ReadsLets};
ghost use Rattle.nk_grammar.specs.Text.{ReadsLetTexts};

use nk_lex::{
    a_name_is_one, a_text_of_lexemes_is_cut_into_them, texts_are_joined, values_are_small,
};

/// The tokens of a policy give its syntax tree.
pub fn policies_are_read()
    ensures { ReadsPolicies }
{}

/// Only the tokens of a policy are read as one.
pub fn what_is_read_is_a_policy()
    ensures { ReadsOnlyPolicies }
{}

/// Tokens that are accepted are the front of a policy.
pub fn what_is_taken_goes_on()
    ensures { TakesFronts }
{}

/// And those that are refused are the front of none.
pub fn what_is_refused_goes_nowhere()
    ensures { RefusesOthers }
{}

/// The tokens of a text give its declarations; so no other text has these tokens.
pub fn texts_are_read()
    ensures { ReadsTexts }
{}

/// Reading a text's tokens answers its declarations, or its first fault.
pub fn texts_are_answered()
    ensures { AnswersTexts }
{}

/// No two texts have the same tokens.
pub fn a_text_has_one_tree()
    ensures { IsUnique }
{}

/// Reading the tokens of a text with a certificate answers its declarations and rows, or its first fault.
pub fn certified_texts_are_answered()
    ensures { AnswersCertifiedTexts }
{}

/// Read token by token, a text with a certificate is what it is as a whole, or has the same first fault.
pub fn a_certified_text_is_read_token_by_token()
    ensures { ReadsCertifiedAsWhole }
{}

/// A reader of texts with a certificate has stopped exactly where no text goes on with the tokens, or more than 256 parentheses and
/// `~` are open after a front of them.
pub fn a_certified_reader_stops_at_the_first_fault()
    ensures { StopsWithCertifiedTexts }
{}

/// The first row that tokens complete is the start row, and what the tokens of a text complete has numbers of a text.
pub fn what_is_completed_is_written()
    ensures { CompletesWritten }
{}

/// No two texts with a certificate have the same tokens.
pub fn a_certified_text_has_one_tree()
    ensures { IsUniqueCertified }
{}

/// The tokens of a certificate in which at most 256 parentheses and `~` are open at once give its rows.
pub fn certificates_are_read()
    ensures { ReadsCertificates }
{}

/// The text of a certificate with each row on a line of its own, in which at most 256 parentheses and `~` are open at
/// once, is cut into tokens that give its rows.
pub fn certificate_texts_are_read()
    ensures { ReadsCertificateTexts }
{
    a_text_of_lexemes_is_cut_into_them();
}

/// A text's declarations stay the same with the tokens of a certificate after them.
pub fn a_program_stays_in_front_of_its_certificate()
    ensures { StaysInFront }
{}

/// The tokens of a certificate, moved to later lines, give the same rows on later lines.
pub fn certificates_are_moved()
    ensures { CertificatesMove }
{}

/// The text of a program, a line feed and the text of a certificate give that program's declarations and that
/// certificate's rows, with the lines of the rows counted from the top of the program.
pub fn a_program_and_a_certificate_are_read_together()
    ensures { ReadsTogether }
{
    texts_are_joined();
}

/// The tokens of a `let` in which at most 256 parentheses and `~` are open at once give its declaration.
pub fn lets_are_read()
    ensures { ReadsLets }
{}

/// The text of such a `let` on one line is cut into tokens that give its declaration.
pub fn let_texts_are_read()
    ensures { ReadsLetTexts }
{
    a_text_of_lexemes_is_cut_into_them();
}

/// Each field that a text declares has a valid name that is no keyword, and a largest value that a number can write.
pub fn fields_of_texts_have_names()
    ensures { DeclaresFields }
{
    a_name_is_one();
    values_are_small();
}
