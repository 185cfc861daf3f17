//! A policy read token by token.
ghost use Rattle.std.specs.Prelude.{
  ◌≡◌,
  ◌∷◌,
  ◌<◌,
  ◌≤◌,
  ◌+◌,
  None,
  IfOk,
  OnErr,
  OnOk,
  Bool,
  false,
  true,
  length,
  nat_le,
  option_map,
  vec_capacity,
  vec_len,
};
ghost use Rattle.nk_grammar.specs.Machine.{
  atom_ended,
  begin,
  close,
  done_at,
  policy_ended,
  after_factor,
  terms_joined,
  first_state,
  state,
  step,
  step_at,
  step_done,
};
ghost use Rattle.nk_grammar.specs.Reader.{
  Follows,
  FollowsOk,
  HasRoom,
  factors_in,
  open_of,
  reader_state,
  stack_in,
  terms_in,
};
ghost use Rattle.nk_grammar.specs.Terminal.{closing, star_sign, terminal_of};
ghost use Rattle.nk_grammar.specs.Tree.{name_of, no_part, seq_from, tree_of, with_part, with_star};

use crate::ast::Ast;
use crate::build::{join, push_last, push_term, sequence, star_last, sum};
use crate::frame::{Frame, close_negations, is_enclosed};
use crate::parts::{is_dots_token, number_of, quad_after};
use crate::place::Place;
use nk_lex::{Ident, Kind, Number, Quad, QuadNext, Token, ident_of};
use std::alloc::{AllocError, AllocFailed, Global};
use std::mem::replace;

/// How many parentheses and `~` may be open.
const DEEPEST: usize = 256;

/// Reads a policy token by token. It keeps what may come next, what is open, the innermost last, and the terms and factors that are
/// complete.
///
/// A token for which memory runs out, or with which no policy goes on, changes nothing. So what may fail comes first and changes no
/// value: room is made, and the last factor, which stands apart since it took no room, is put after the others. What is moved out to
/// look at the token is put back where it doesn't fit.
pub struct PolicyReader {
    place: Place,
    frames: Vec<Frame>,
    terms: Vec<Ast>,
    factors: Vec<Ast>,
    last: Option<Ast>,
}

impl Drop for PolicyReader {
    fn drop(self) {
        let Self {
            place: _,
            frames: _,
            terms: _,
            factors: _,
            last: _,
        } = self;
    }
}

impl PolicyReader {
    /// A reader before the first token. It takes no memory.
    pub fn new(alloc: Global) -> PolicyReader
        ensures { reader_state result ≡ first_state }
    {
        PolicyReader {
            place: Place::Want,
            frames: Vec::new(alloc),
            terms: Vec::new(alloc),
            factors: Vec::new(alloc),
            last: None,
        }
    }

    /// Whether no more than 256 parentheses and `~` are open.
    #[tactic(auto, using(crate::proofs::Stack::stack_length))]
    pub fn is_shallow(&self) -> bool
        ensures { result ≡ nat_le (length (stack_in self.now)) 256 }
    {
        self.frames.len() <= DEEPEST
    }

    /// The last factor stands after the others.
    fn put_last(&mut self)
        requires room { vec_len self.old.factors < vec_capacity self.old.factors }
        ensures same { reader_state self.new ≡ reader_state self.old }
        ensures last { self.new.last ≡ None }
        ensures terms { self.new.terms ≡ self.old.terms }
        ensures frames { self.new.frames ≡ self.old.frames }
        ensures place { self.new.place ≡ self.old.place }
        ensures len { vec_len self.new.factors ≤ vec_len self.old.factors + 1 }
        ensures capacity { vec_capacity self.new.factors ≡ vec_capacity self.old.factors }
    {
        let last = replace(&mut self.last, None);
        push_last(&mut self.factors, last);
    }

    /// Makes room for one more factor and one more term, with no factor apart. No value changes.
    #[inline(always)]
    fn make_ready(&mut self) -> Result<(), AllocError>
        ensures same { reader_state self.new ≡ reader_state self.old }
        ensures last { OnOk result (self.new.last ≡ None) }
        ensures room { OnOk result (HasRoom self.new) }
    {
        self.terms.reserve(1)?;
        self.factors.reserve(2)?;
        if let Some(_) = &self.last {
            self.put_last();
        }
        Ok(())
    }

    /// An atom ended, and with it each `~` before it.
    fn end_atom(&mut self, atom: Ast)
        requires last { self.old.last ≡ None }
        ensures state { reader_state self.new ≡ atom_ended (tree_of atom) (stack_in self.old)
            (terms_in self.old) (factors_in self.old) }
        ensures place { self.new.place ≡ Place.After false }
        ensures terms { self.new.terms ≡ self.old.terms }
        ensures factors { self.new.factors ≡ self.old.factors }
    {
        let factor = close_negations(&mut self.frames, atom);
        self.last = Some(factor);
        self.place.set(Place::After(false));
    }

    /// An atom ended that was the last token.
    fn take_atom(&mut self, atom: Ast) -> bool
        requires last { self.old.last ≡ None }
        ensures state { reader_state self.new ≡ atom_ended (tree_of atom) (stack_in self.old)
            (terms_in self.old) (factors_in self.old) }
        ensures taken { result ≡ true }
    {
        self.end_atom(atom);
        true
    }

    /// A test, a range or an assignment ended, which was the last token, and with it each `~` before it. There is room for the factor
    /// among the others, so it needn't stand apart.
    #[tactic(auto, using(crate::proofs::Trees::trees_push))]
    fn put_atom(&mut self, atom: Ast) -> bool
        requires last { self.old.last ≡ None }
        requires room { HasRoom self.old }
        ensures state { reader_state self.new ≡ atom_ended (tree_of atom) (stack_in self.old)
            (terms_in self.old) (factors_in self.old) }
        ensures taken { result ≡ true }
    {
        let factor = close_negations(&mut self.frames, atom);
        self.factors.push_reserved(factor);
        self.place.set(Place::After(false));
        true
    }

    /// A `~` or a parenthesis opens. There is room for it.
    #[tactic(auto, using(crate::proofs::Stack::stack_push))]
    fn open(&mut self, frame: Frame) -> bool
        requires room { vec_len self.old.frames < vec_capacity self.old.frames }
        ensures state { reader_state self.new ≡ state Place.Want (open_of frame ∷ stack_in self.old)
            (terms_in self.old) (factors_in self.old) }
        ensures taken { result ≡ true }
    {
        self.frames.push_reserved(frame);
        self.place.set(Place::Want);
        true
    }

    /// An atom is wanted.
    fn begin(&mut self, alloc: Global, token: &Token) -> Result<bool, AllocError>
        requires place { self.old.place ≡ Place.Want }
        requires last { self.old.last ≡ None }
        ensures state { FollowsOk result (begin (stack_in self.old) (terms_in self.old)
            (factors_in self.old) (terminal_of token.now)) (reader_state self.old)
            (reader_state self.new) }
        ensures kept { OnErr result (reader_state self.new ≡ reader_state self.old) }
    {
        match token.kind {
            Kind::Tilde => {
                self.frames.reserve(1)?;
                let cell = Box::new(alloc, Ast::Dup)?;
                Ok(self.open(Frame::Negation(cell, token.line)))
            }
            Kind::OpenParen => {
                self.frames.reserve(1)?;
                let terms = replace(&mut self.terms, Vec::new(alloc));
                let factors = replace(&mut self.factors, Vec::new(alloc));
                Ok(self.open(Frame::Group(terms, factors)))
            }
            Kind::Id => Ok(self.take_atom(sequence(Vec::new(alloc)))),
            Kind::Drop => Ok(self.take_atom(sum(Vec::new(alloc)))),
            Kind::Dup => Ok(self.take_atom(Ast::Dup)),
            Kind::Name => {
                self.place.set(Place::Named(ident_of(alloc, token)?));
                Ok(true)
            }
            Kind::Number => {
                let number = Number {
                    value: token.value,
                    line: token.line,
                };
                self.place.set(Place::Linked(Quad::Switch(number)));
                Ok(true)
            }
            _ => Ok(false),
        }
    }

    /// The policy of the terms and factors, in front of which these are read on.
    fn take_policy(&mut self, terms: Vec<Ast>, factors: Vec<Ast>) -> Ast
        requires room { HasRoom self.old }
        ensures tree { tree_of result ≡ terms_joined (terms_in self.old) (factors_in self.old) }
        ensures terms { self.new.terms ≡ terms }
        ensures factors { self.new.factors ≡ factors }
        ensures last { self.new.last ≡ None }
        ensures frames { self.new.frames ≡ self.old.frames }
    {
        self.put_last();
        let inner_terms = replace(&mut self.terms, terms);
        let inner_factors = replace(&mut self.factors, factors);
        join(inner_terms, inner_factors)
    }

    /// The policy, where nothing is open after a factor.
    #[tactic(auto, using(crate::proofs::Stack::nothing_open, crate::proofs::Stack::something_open))]
    fn policy(&mut self, alloc: Global) -> Option<Ast>
        requires room { HasRoom self.old }
        ensures { (b : Bool) → option_map tree_of result
            ≡ done_at (Place.After b) (stack_in self.old)
            (terms_joined (terms_in self.old) (factors_in self.old)) }
    {
        if self.frames.is_empty() {
            Some(self.take_policy(Vec::new(alloc), Vec::new(alloc)))
        } else {
            None
        }
    }

    /// A parenthesis closes, if it is the innermost that is open.
    #[tactic(auto, using(crate::proofs::Stack::stack_push))]
    fn close(&mut self) -> bool
        requires room { HasRoom self.old }
        ensures { Follows result
            (close (stack_in self.old) (terms_joined (terms_in self.old) (factors_in self.old)))
            (reader_state self.old) (reader_state self.new) }
    {
        match self.frames.pop() {
            Some(Frame::Group(terms, factors)) => {
                let inner = self.take_policy(terms, factors);
                self.take_atom(inner)
            }
            Some(Frame::Negation(cell, line)) => {
                self.frames.push_reserved(Frame::Negation(cell, line));
                false
            }
            None => false,
        }
    }

    /// A further term begins.
    fn plus(&mut self, alloc: Global) -> bool
        requires room { HasRoom self.old }
        ensures state { reader_state self.new
            ≡ state Place.Want (stack_in self.old) (with_part (terms_in self.old)
            (seq_from (factors_in self.old))) no_part }
        ensures taken { result ≡ true }
    {
        self.put_last();
        push_term(alloc, &mut self.terms, &mut self.factors);
        self.place.set(Place::Want);
        true
    }

    /// A further factor begins.
    fn semicolon(&mut self) -> bool
        ensures state { reader_state self.new
            ≡ state Place.Want (stack_in self.old) (terms_in self.old)
            (factors_in self.old) }
        ensures taken { result ≡ true }
    {
        self.place.set(Place::Want);
        true
    }

    /// A star over the last factor, in a box that is made.
    fn star(&mut self, cell: Box<Ast>) -> bool
        requires room { HasRoom self.old }
        ensures state { reader_state self.new
            ≡ state (Place.After true) (stack_in self.old) (terms_in self.old)
            (with_star (factors_in self.old)) }
        ensures taken { result ≡ true }
    {
        self.put_last();
        self.last = star_last(cell, &mut self.factors);
        self.place.set(Place::After(true));
        true
    }

    /// A factor stands there, with a star or without.
    fn go_on(&mut self, alloc: Global, starred: bool, token: &Token) -> Result<bool, AllocError>
        requires place { self.old.place ≡ Place.After starred }
        requires room { HasRoom self.old }
        ensures state { FollowsOk result
            (after_factor starred (stack_in self.old) (terms_in self.old)
            (factors_in self.old) (terminal_of token.now)) (reader_state self.old)
            (reader_state self.new) }
        ensures kept { OnErr result (reader_state self.new ≡ reader_state self.old) }
    {
        match token.kind {
            Kind::Plus => Ok(self.plus(alloc)),
            Kind::Semicolon => Ok(self.semicolon()),
            Kind::Star => {
                if starred {
                    return Ok(true);
                }
                let cell = Box::new(alloc, Ast::Dup)?;
                Ok(self.star(cell))
            }
            Kind::CloseParen => Ok(self.close()),
            _ => Ok(false),
        }
    }

    /// A name stands there, and the token is a star.
    fn star_on_name(&mut self, alloc: Global, word: Ident) -> Result<bool, AllocError>
        requires last { self.old.last ≡ None }
        requires room { HasRoom self.old }
        ensures state { FollowsOk result (step_done (atom_ended (name_of word) (stack_in self.old)
            (terms_in self.old) (factors_in self.old)) star_sign)
            (state (Place.Named word) (stack_in self.old)
            (terms_in self.old) (factors_in self.old)) (reader_state self.new) }
        ensures kept { OnErr result
            (reader_state self.new ≡ state (Place.Named word) (stack_in self.old)
            (terms_in self.old) (factors_in self.old)) }
    {
        match Box::new(alloc, Ast::Dup) {
            Ok(cell) => {
                self.end_atom(Ast::Name(word));
                Ok(self.star(cell))
            }
            Err(AllocFailed { .. }) => {
                self.place.set(Place::Named(word));
                Err(AllocError)
            }
        }
    }

    /// No policy goes on with the token, and what stands before it stays.
    fn stay(&mut self, place: Place) -> bool
        ensures state { reader_state self.new ≡ state place (stack_in self.old) (terms_in self.old)
            (factors_in self.old) }
        ensures refused { result ≡ false }
    {
        self.place.set(place);
        false
    }

    /// A name stands there, and the token is a closing parenthesis.
    #[tactic(auto, using(crate::proofs::Stack::none_closes, crate::proofs::Stack::one_closes, crate::proofs::Stack::taken_whatever))]
    fn close_on_name(&mut self, word: Ident) -> bool
        requires last { self.old.last ≡ None }
        requires room { HasRoom self.old }
        ensures { Follows result (step_done (atom_ended (name_of word) (stack_in self.old)
            (terms_in self.old) (factors_in self.old)) closing)
            (state (Place.Named word) (stack_in self.old)
            (terms_in self.old) (factors_in self.old)) (reader_state self.new) }
    {
        if is_enclosed(&self.frames) {
            self.end_atom(Ast::Name(word));
            self.close()
        } else {
            self.stay(Place::Named(word))
        }
    }

    /// A name stands there.
    fn after_name(&mut self, alloc: Global, word: Ident, token: &Token) -> Result<bool, AllocError>
        requires last { self.old.last ≡ None }
        requires room { HasRoom self.old }
        ensures state { FollowsOk result (step_at (Place.Named word) (stack_in self.old)
            (terms_in self.old) (factors_in self.old) (terminal_of token.now))
            (state (Place.Named word) (stack_in self.old) (terms_in self.old) (factors_in self.old))
            (reader_state self.new) }
        ensures kept { OnErr result
            (reader_state self.new ≡ state (Place.Named word) (stack_in self.old)
            (terms_in self.old) (factors_in self.old)) }
    {
        match token.kind {
            Kind::Equal => {
                self.place.set(Place::Tested(word));
                Ok(true)
            }
            Kind::In => {
                self.place.set(Place::Ranged(word));
                Ok(true)
            }
            Kind::Assign => {
                self.place.set(Place::Assigned(word));
                Ok(true)
            }
            Kind::Star => self.star_on_name(alloc, word),
            Kind::Plus => {
                self.end_atom(Ast::Name(word));
                Ok(self.plus(alloc))
            }
            Kind::Semicolon => {
                self.end_atom(Ast::Name(word));
                Ok(self.semicolon())
            }
            Kind::CloseParen => Ok(self.close_on_name(word)),
            _ => Ok(self.stay(Place::Named(word))),
        }
    }

    /// One more token of a link literal.
    fn after_quad(&mut self, quad: Quad, token: &Token) -> bool
        requires last { self.old.last ≡ None }
        ensures { Follows result (step_at (Place.Linked quad) (stack_in self.old)
            (terms_in self.old) (factors_in self.old) (terminal_of token.now))
            (state (Place.Linked quad)
            (stack_in self.old) (terms_in self.old) (factors_in self.old)) (reader_state self.new) }
    {
        match quad_after(true, quad, token) {
            QuadNext::Refused => self.stay(Place::Linked(quad)),
            QuadNext::Going(quad) => {
                self.place.set(Place::Linked(quad));
                true
            }
            QuadNext::Full(a, m, b, n) => self.take_atom(Ast::Link(a, m, b, n)),
        }
    }

    /// One more token after a part of an atom.
    fn step_in_atom(&mut self, alloc: Global, token: &Token) -> Result<bool, AllocError>
        requires last { self.old.last ≡ None }
        requires room { HasRoom self.old }
        requires begun { self.old.place ≡ Place.Want → ⊥ }
        requires open { (b : Bool) → self.old.place ≡ Place.After b → ⊥ }
        ensures state { FollowsOk result (step (reader_state self.old) (terminal_of token.now))
            (reader_state self.old) (reader_state self.new) }
        ensures kept { OnErr result (reader_state self.new ≡ reader_state self.old) }
    {
        match replace(&mut self.place, Place::Want) {
            Place::Named(word) => self.after_name(alloc, word, token),
            Place::Tested(word) => match number_of(token) {
                Some(number) => Ok(self.put_atom(Ast::Test(word, number))),
                None => Ok(self.stay(Place::Tested(word))),
            },
            Place::Ranged(word) => match number_of(token) {
                Some(low) => {
                    self.place.set(Place::RangedFrom(word, low));
                    Ok(true)
                }
                None => Ok(self.stay(Place::Ranged(word))),
            },
            Place::RangedFrom(word, low) => {
                if is_dots_token(token) {
                    self.place.set(Place::RangedTo(word, low));
                    Ok(true)
                } else {
                    Ok(self.stay(Place::RangedFrom(word, low)))
                }
            }
            Place::RangedTo(word, low) => match number_of(token) {
                Some(high) => Ok(self.put_atom(Ast::Range(word, low, high))),
                None => Ok(self.stay(Place::RangedTo(word, low))),
            },
            Place::Assigned(word) => match number_of(token) {
                Some(number) => Ok(self.put_atom(Ast::Set(word, number))),
                None => Ok(self.stay(Place::Assigned(word))),
            },
            Place::Linked(quad) => Ok(self.after_quad(quad, token)),
            Place::Want => unreachable!(),
            Place::After(_) => unreachable!(),
        }
    }

    /// One more token, where there is room and no factor stands apart.
    fn step(&mut self, alloc: Global, token: &Token) -> Result<bool, AllocError>
        requires last { self.old.last ≡ None }
        requires room { HasRoom self.old }
        ensures state { FollowsOk result (step (reader_state self.old) (terminal_of token.now))
            (reader_state self.old) (reader_state self.new) }
        ensures kept { OnErr result (reader_state self.new ≡ reader_state self.old) }
    {
        match &self.place {
            Place::Want => self.begin(alloc, token),
            Place::After(starred) => {
                let starred = *starred;
                self.go_on(alloc, starred, token)
            }
            _ => self.step_in_atom(alloc, token),
        }
    }

    /// Reads one more token, and says whether it was taken; else no policy goes on with it, and nothing changed. The only error is that
    /// memory ran out, and then nothing changed either.
    pub fn take(&mut self, alloc: Global, token: &Token) -> Result<bool, AllocError>
        ensures state { FollowsOk result (step (reader_state self.old) (terminal_of token.now))
            (reader_state self.old) (reader_state self.new) }
        ensures kept { OnErr result (reader_state self.new ≡ reader_state self.old) }
    {
        self.make_ready()?;
        self.step(alloc, token)
    }

    /// The policy, if one can end here, where there is room and no factor stands apart.
    fn end_ready(&mut self, alloc: Global) -> Option<Ast>
        requires last { self.old.last ≡ None }
        requires room { HasRoom self.old }
        ensures { option_map tree_of result ≡ policy_ended (reader_state self.old) }
    {
        match replace(&mut self.place, Place::Want) {
            Place::Named(word) => {
                self.end_atom(Ast::Name(word));
                self.policy(alloc)
            }
            Place::After(_) => self.policy(alloc),
            Place::Want => None,
            Place::Tested(_) => None,
            Place::Ranged(_) => None,
            Place::RangedFrom(..) => None,
            Place::RangedTo(..) => None,
            Place::Assigned(_) => None,
            Place::Linked(_) => None,
        }
    }

    /// The policy, if one can end here. The only error is that memory ran out, and then nothing changed.
    pub fn end(&mut self, alloc: Global) -> Result<Option<Ast>, AllocError>
        ensures policy { IfOk result
            (λ o. option_map tree_of o ≡ policy_ended (reader_state self.old)) }
        ensures kept { OnErr result (reader_state self.new ≡ reader_state self.old) }
    {
        self.make_ready()?;
        Ok(self.end_ready(alloc))
    }
}
