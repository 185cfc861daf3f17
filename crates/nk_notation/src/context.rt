//! What kind of text it is.

/// What kind of text it is, as far as the bytes so far say.
#[derive(Clone, Copy)]
pub(crate) enum TextKind {
    /// No word has come yet.
    Unknown,
    /// A table text: its first word is `tables`.
    Tables,
    /// Any other text.
    Other,
}
