//! The law of answers: of words and bytes one is right.
ghost use Rattle.std.specs.Prelude.{◌≡◌, ℕ, List};
ghost use Rattle.nk_reply.specs.Answer.{Answer};
ghost use Rattle.nk_openflow_commands.specs.Ends.{IsFlowsAnswerTo};

/// For words and the bytes of an input at most one answer is right, with its status and all of its text.
pub fn an_input_has_one_answer()
    ensures { (words : List (List ℕ)) (bytes : List ℕ) (a b : Answer)
        → IsFlowsAnswerTo words bytes a → IsFlowsAnswerTo words bytes b → a ≡ b }
{}
