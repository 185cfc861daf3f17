//! What is open in a policy.
ghost use Rattle.std.specs.Prelude.{◌≡◌, false};
ghost use Rattle.nk_grammar.specs.Machine.{atom_ended, state};
ghost use Rattle.nk_grammar.specs.declared.place.Place.{Place};
ghost use Rattle.nk_grammar.specs.Reader.{PopsNegation, encloses, stack_of};
ghost use Rattle.nk_grammar.specs.Tree.{Trees, tree_of, with_part};

use crate::ast::Ast;
use crate::build::negated;

/// An open parenthesis with the terms and factors before it, or an open `~` with its line and the box that is made for what it is
/// over.
#[derive(Drop)]
pub enum Frame {
    Group(Vec<Ast>, Vec<Ast>),
    Negation(Box<Ast>, u64),
}

/// Closes the innermost of what is open where that is a `~`, and gives its box and line; else nothing changes.
#[tactic(auto, using(crate::proofs::Stack::stack_push, crate::proofs::Stack::group_is_top, crate::proofs::Stack::nothing_is_top))]
fn pop_negation(frames: &mut Vec<Frame>) -> Option<(Box<Ast>, u64)>
    ensures { PopsNegation result (stack_of frames.old.items) (stack_of frames.new.items) }
{
    match frames.pop() {
        Some(Frame::Negation(cell, line)) => Some((cell, line)),
        Some(Frame::Group(terms, factors)) => {
            frames.push_reserved(Frame::Group(terms, factors));
            None
        }
        None => None,
    }
}

/// An atom ended, and with it each `~` before it: gives the factor that they are.
pub fn close_negations(frames: &mut Vec<Frame>, atom: Ast) -> Ast
    ensures { (ts us : Trees) → atom_ended (tree_of atom) (stack_of frames.old.items) ts us
        ≡ state (Place.After false) (stack_of frames.new.items) ts (with_part us (tree_of result)) }
{
    let mut atom = atom;
    'negations: while let Some((cell, line)) = pop_negation(frames) {
        atom = negated(cell, atom, line);
    }
    atom
}

/// Whether a parenthesis is open.
pub fn is_enclosed(frames: &[Frame]) -> bool
    ensures { result ≡ encloses (stack_of frames.now) }
{
    let mut left = frames.len();
    'negations: while 0 < left {
        left -= 1;
        if let Frame::Group(..) = &frames[left] {
            return true;
        }
    }
    false
}
