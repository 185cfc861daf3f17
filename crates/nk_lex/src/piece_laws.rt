//! Which tokens a text that isn't at its end has given.
ghost use Rattle.nk_lex.specs.Pieces.{CompletedStay, FaultsStay};

/// The tokens that are complete are exactly those that stand at the front of the text's tokens whatever
/// bytes come after it.
pub fn complete_tokens_stay()
    ensures { CompletedStay }
{}

/// After a fault no token is completed, whatever bytes come, and the whole text has this fault as its first.
pub fn a_fault_stays()
    ensures { FaultsStay }
{}
