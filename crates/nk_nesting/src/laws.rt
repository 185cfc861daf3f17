//! The laws.
ghost use Rattle.nk_nesting.specs.Certificates.{
  CertifiedCountsGoWithTokens,
  IsCertifiedWithinOrAbove,
  ReadsCertifiedWithinTheLimit,
  RefusesOnlyTheCertified257th,
  RefusesTheCertified257th,
};
ghost use Rattle.nk_nesting.specs.Counts.{CountsGoWithTokens};
ghost use Rattle.nk_nesting.specs.Instances.{ShowsLimit};
ghost use Rattle.nk_nesting.specs.Limit.{
  IsWithinOrAbove,
  ReadsWithinTheLimit,
  RefusesOnlyThe257th,
  RefusesThe257th,
};

/// A text has one count for each token, with a certificate and without: each `(` and `~` opens one more, `)` leaves fewer
/// open, and no other token opens any.
pub fn each_token_has_a_count()
    ensures texts { CountsGoWithTokens }
    ensures certificates { CertifiedCountsGoWithTokens }
{}

/// Each text is within the limit, or has a first token that opens the 257th: so what follows tells of all.
pub fn each_text_is_within_the_limit_or_above_it()
    ensures texts { IsWithinOrAbove }
    ensures certificates { IsCertifiedWithinOrAbove }
{}

/// The first token of a text that opens the 257th is refused as too deep, whatever stands after it.
pub fn the_257th_is_refused()
    ensures texts { RefusesThe257th }
    ensures certificates { RefusesTheCertified257th }
{}

/// A text of any number of declarations and rows, in which never more than 256 are open, gives these declarations and
/// rows.
pub fn within_the_limit_is_read()
    ensures texts { ReadsWithinTheLimit }
    ensures certificates { ReadsCertifiedWithinTheLimit }
{}

/// What is refused as too deep is a `(` or `~` that is the first to be open as the 257th, in every text that begins with
/// these tokens.
pub fn only_the_257th_is_too_deep()
    ensures texts { RefusesOnlyThe257th }
    ensures certificates { RefusesOnlyTheCertified257th }
{}

/// 256 parentheses around `id` are read, and 257 are refused at the last.
pub fn the_limit_is_met()
    ensures { ShowsLimit }
{}
