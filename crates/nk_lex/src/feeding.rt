//! A text that comes in pieces.
ghost use Rattle.std.specs.Prelude.{
  ◌≡◌,
  ◌<◌,
  ◌≤◌,
  ◌+◌,
  ◌-◌,
  ◌^◌,
  ◌++◌,
  ℕ,
  List,
  [],
  length,
  Ok,
  IfOk,
  IsOk,
  IsUtf8,
  OnOk,
  OnErr,
};
ghost use Rattle.std.specs.List.{All};
ghost use Rattle.nk_lex.specs.declared.token.LexError.{LexError};
ghost use Rattle.nk_lex.specs.declared.unfinished.Pending.TheVariants.{Fault};
ghost use Rattle.nk_lex.specs.Lex.{largest, tokens_of, LexReturns};
ghost use Rattle.nk_lex.specs.Kept.{IsFed};
ghost use Rattle.nk_lex.specs.Pieces.{completed, open_in, HasLexicalFault, CompletesNothing};

use crate::settling::{cut_on, ending, goes_on, hold, pending_past};
use crate::unfinished::Pending;
use crate::{LexError, Token};
use std::alloc::{AllocError, Global};
use std::marker::Model;

/// Cuts a text that comes in pieces into tokens. It keeps neither the text nor the tokens that it gave. Of
/// what is open at the end of a piece it keeps the bytes of a name or a symbol, the value of a number, and
/// nothing of white space and comments. After a fault of the text it keeps the fault.
#[derive(Drop)]
pub struct Feed {
    fed: usize,
    line: u64,
    pending: Pending,
    held: Vec<u8>,
}

impl Model for Feed {
    ghost use Rattle.std.specs.Prelude.{◌≤◌, ◌+◌, length};
    ghost use Rattle.nk_lex.specs.Kept.{FeedState, IsPendingWithin};

    ghost Value = { FeedState };

    ghost view = { λ s. record {
      fed = s.fed;
      line = s.line;
      pending = s.pending;
      held = s.held.items;
    } };

    ghost invariant = { λ s. (s.line + length s.held.items ≤ s.fed + 1) × (length s.held.items ≤ s.fed)
        × IsPendingWithin s.pending s.fed };
}

impl Feed {
    /// A text of which no byte came yet. It takes no memory.
    pub fn new(alloc: Global) -> Self
        ensures { IsFed [] result }
    {
        Feed {
            fed: 0,
            line: 1,
            pending: Pending::Nothing,
            held: Vec::new(alloc),
        }
    }

    /// The tokens that the piece completes, with their spans and lines in the whole text. A token is
    /// complete once no further byte can make it longer. The piece may be empty; all bytes that were fed,
    /// the piece's among them, are fewer than the last `usize`. A fault of the text is no error here: from
    /// its byte on no token comes, whatever is fed, and `end` answers it.
    ///
    /// `AllocError` says that memory ran out, and then nothing changed, so the piece can be fed again. No
    /// memory is taken where no name and no symbol is open, neither before nor after the piece, and no
    /// token is completed, nor after a fault.
    pub fn feed(&mut self, alloc: Global, piece: &[u8]) -> Result<Vec<Token>, AllocError>
        requires room { self.now.fed + length piece.now < 2 ^ 64 - 1 }
        ensures tokens { (text : List ℕ) → IsFed text self.old → IfOk result (λ v.
            completed text ++ v.items ≡ completed (text ++ piece.now)) }
        ensures fed { (text : List ℕ) → IsFed text self.old → OnOk result
            (IsFed (text ++ piece.now) self.new) }
        ensures count { OnOk result (self.new.fed ≡ self.old.fed + length piece.now) }
        ensures small { (text : List ℕ) → IsFed text self.old → IfOk result (λ v.
            All (λ t. t.value ≤ largest) v.items) }
        ensures texts { (text : List ℕ) → IsFed text self.old → IfOk result (λ v.
            All (λ t. IsUtf8 t.text) v.items) }
        ensures quiet { (text : List ℕ) → IsFed text self.old → self.old.held ≡ []
            → CompletesNothing text piece.now → IsOk result }
        ensures fault { (text : List ℕ) (e : LexError) → IsFed text self.old
            → HasLexicalFault text e
            → IsOk result × IfOk result (λ v. v.items ≡ []) × (self.new.pending ≡ Fault e) }
        ensures err { OnErr result (self.new ≡ self.old) }
    {
        let fed = self.fed + piece.len();
        if goes_on(self.pending, &self.held, piece) {
            hold(&mut self.held, self.pending, piece)?;
            self.pending = pending_past(self.pending, piece);
            self.fed = fed;
            return Ok(Vec::new(alloc));
        }
        let next = cut_on(alloc, self.pending, &self.held, self.fed, self.line, piece)?;
        self.fed = fed;
        self.line = next.line;
        self.pending = next.pending;
        self.held = next.held;
        Ok(next.tokens)
    }

    /// Ends the text: the tokens of the whole text that no piece completed, none or one. The errors are
    /// those of `tokens`: the first fault of the whole text, with its line, or `NoMemory`.
    pub fn end(self, alloc: Global) -> Result<Vec<Token>, LexError>
        ensures tokens { (text : List ℕ) → IsFed text self
            → LexReturns (λ v. completed text ++ v.items) result (tokens_of text) }
        ensures small { (text : List ℕ) → IsFed text self → IfOk result (λ v.
            All (λ t. t.value ≤ largest) v.items) }
        ensures texts { (text : List ℕ) → IsFed text self → IfOk result (λ v.
            All (λ t. IsUtf8 t.text) v.items) }
    {
        ending(alloc, self.pending, &self.held, self.fed, self.line)
    }

    /// The number of bytes of the name or symbol that is open at the end of the bytes so far, 0 where none
    /// is.
    pub fn held(&self) -> usize
        ensures held { result ≡ length self.now.held }
        ensures open { (text : List ℕ) → IsFed text self.now → result ≡ length (open_in text) }
    {
        self.held.len()
    }
}
