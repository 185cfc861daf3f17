//! What translates the lexemes of a text.
ghost use Rattle.std.specs.Prelude.{◌≡◌, ◌∷◌, [], None, map};
ghost use Rattle.nk_notation.specs.Lexemes.{Word, Byte, Note};
ghost use Rattle.nk_notation.specs.Translation.{TranslationGoesOn, nothing};

use nk_number_forms::Stop;

/// What translates the lexemes of a text, one after the other. What comes of them goes to the end of `out`.
pub(crate) trait Notation {
    ghost use Rattle.std.specs.Prelude.{List, ℕ};
    ghost use Rattle.nk_notation.specs.Lexemes.{TextLexeme};
    ghost use Rattle.nk_notation.specs.Translation.{Translated};

    /// What comes of the lexemes that are left.
    ghost made: { Self → List TextLexeme → Translated };

    /// Bytes outside words are never refused.
    ghost sound: { (n : Self) (bs : List ℕ) → (made n (map Byte bs)).fault ≡ None };

    /// A word. At a malformed one the word itself goes to `out`.
    fn word(&mut self, out: &mut Vec<u8>, text: &[u8]) -> Result<(), Stop>
        ensures { (ls : List TextLexeme)
            → TranslationGoesOn result (made self.old (Word text.now ∷ ls)) (made self.new ls)
            out.old.items out.new.items };

    /// A byte outside words.
    fn byte(&mut self, out: &mut Vec<u8>, byte: u8) -> Result<(), Stop>
        ensures { (ls : List TextLexeme)
            → TranslationGoesOn result (made self.old (Byte byte ∷ ls)) (made self.new ls)
            out.old.items out.new.items };

    /// A byte of a comment.
    fn note(&mut self, out: &mut Vec<u8>, byte: u8) -> Result<(), Stop>
        ensures { (ls : List TextLexeme)
            → TranslationGoesOn result (made self.old (Note byte ∷ ls)) (made self.new ls)
            out.old.items out.new.items };

    /// The end of the text.
    fn end(&mut self, out: &mut Vec<u8>) -> Result<(), Stop>
        ensures { TranslationGoesOn result (made self.old []) nothing out.old.items out.new.items };
}
