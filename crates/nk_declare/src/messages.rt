//! The words for what is wrong with a declaration.
ghost use Rattle.std.specs.Prelude.{◌≡◌};
ghost use Rattle.nk_declare.specs.Messages.{declaration_fault_message};

use crate::fault::DeclareFault;

impl DeclareFault {
    /// The words for it.
    pub fn message(self) -> &'static str
        ensures { result.now ≡ declaration_fault_message self }
    {
        match self {
            DeclareFault::FieldTwice => "field twice",
            DeclareFault::TooManyFields => "too many fields",
            DeclareFault::TagTwice => "tag twice",
            DeclareFault::TagUnknown => "tag unknown",
            DeclareFault::SwitchTwice => "switch twice",
            DeclareFault::PortTwice => "port twice",
            DeclareFault::NoSuchPort => "no such port",
            DeclareFault::SourceTwice => "source twice",
            DeclareFault::TargetTwice => "target twice",
            DeclareFault::ValueOutOfRange => "value out of range",
        }
    }
}
