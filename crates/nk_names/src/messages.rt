//! The words for what is wrong with a text.
ghost use Rattle.std.specs.Prelude.{◌≡◌};
ghost use Rattle.nk_names.specs.Messages.{fault_message_of};

use crate::fault::FaultKind;

impl FaultKind {
    /// The words for it; a common fault has the words that nk_declare gives it.
    pub fn message(self) -> &'static str
        ensures { result.now ≡ fault_message_of self }
    {
        match self {
            FaultKind::Common(fault) => fault.message(),
            FaultKind::LetTwice => "let twice",
            FaultKind::UnknownName => "unknown name",
            FaultKind::UnknownField => "unknown field",
            FaultKind::NotAPredicate => "not a predicate",
            FaultKind::TooDeep => "too deep",
            FaultKind::TooLarge => "too large",
        }
    }
}
