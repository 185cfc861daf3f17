//! Laws of reading token by token, as the specifications do it: it reads the grammar's table texts and no others, and the states
//! go along with it.
ghost use Rattle.nk_tabgrammar.specs.Answer.{AnswersTableTexts, IsUniquelySpelled, ReadsTableTexts};
ghost use Rattle.nk_tabgrammar.specs.States.{FollowStages};
ghost use Rattle.nk_tabgrammar.specs.Telling.{TellTexts};

/// Reading a text's tokens answers what is written, or the first token with which no text can continue.
pub fn texts_are_answered()
    ensures { AnswersTableTexts }
{}

/// Tokens that spell what is written are read as it.
pub fn texts_are_read()
    ensures { ReadsTableTexts }
{}

/// No two texts have the same tokens.
pub fn a_text_has_one_reading()
    ensures { IsUniquelySpelled }
{}

/// What may come next is the same without what was read: a text goes on with a token, and ends, exactly where the states do.
pub fn states_follow_the_grammar()
    ensures { FollowStages }
{}

/// The states take tokens to an end exactly where they spell a text, and tell what is written.
pub fn states_tell_what_is_written()
    ensures { TellTexts }
{}
