//! Syntax trees from their parts.
ghost use Rattle.nk_grammar.specs.Machine.{terms_joined};
ghost use Rattle.nk_grammar.specs.Reader.{with_last};
ghost use Rattle.nk_grammar.specs.Tree.{
  not_of,
  seq_from,
  seq_of,
  sum_from,
  sum_of,
  tree_of,
  trees_of,
  with_part,
  with_star,
};
ghost use Rattle.std.specs.Prelude.{◌≡◌, ◌≤◌, ◌<◌, ◌+◌, vec_capacity, vec_len, [], IfOk, IfErr, IfSome, OnSome, None};

use crate::ast::{Ast, Asts};
use std::alloc::Global;
use std::mem::replace;

/// Takes the only one of some parts out, where there is one alone; else they stay.
#[tactic(auto, using(crate::proofs::Trees::one_alone))]
fn take_alone(items: &mut Vec<Ast>) -> Option<Ast>
    ensures one { IfSome result (λ t. (sum_from (trees_of items.old.items) ≡ tree_of t) ×
        (seq_from (trees_of items.old.items) ≡ tree_of t)) }
    ensures others { result ≡ None
        → (sum_from (trees_of items.old.items) ≡ sum_of (trees_of items.old.items)) ×
        (seq_from (trees_of items.old.items) ≡ seq_of (trees_of items.old.items)) }
    ensures taken { OnSome result (items.new.items ≡ []) }
    ensures kept { result ≡ None → items.new.items ≡ items.old.items }
{
    if items.len() == 1 { items.pop() } else { None }
}

/// The only one of some parts, or all of them.
fn alone(items: Vec<Ast>) -> Result<Ast, Vec<Ast>>
    ensures one { IfOk result (λ t. (sum_from (trees_of items.items) ≡ tree_of t) ×
        (seq_from (trees_of items.items) ≡ tree_of t)) }
    ensures others { IfErr result (λ ts. (sum_from (trees_of items.items) ≡ sum_of
        (trees_of ts.items)) × (seq_from (trees_of items.items) ≡ seq_of (trees_of ts.items))) }
{
    let mut items = items;
    match take_alone(&mut items) {
        Some(term) => Ok(term),
        None => Err(items),
    }
}

/// One term alone is that term, several are a sum.
#[tactic(auto, using(crate::proofs::Trees::tree_of_sum))]
pub fn sum(items: Vec<Ast>) -> Ast
    ensures { tree_of result ≡ sum_from (trees_of items.items) }
{
    match alone(items) {
        Ok(term) => term,
        Err(items) => Ast::Sum(Asts::new(items)),
    }
}

/// One factor alone is that factor, several are a sequence.
#[tactic(auto, using(crate::proofs::Trees::tree_of_seq))]
pub fn sequence(items: Vec<Ast>) -> Ast
    ensures { tree_of result ≡ seq_from (trees_of items.items) }
{
    match alone(items) {
        Ok(factor) => factor,
        Err(items) => Ast::Seq(Asts::new(items)),
    }
}

/// Puts one more part after the others, where there is room for it.
#[tactic(auto, using(crate::proofs::Trees::trees_push))]
fn push(items: &mut Vec<Ast>, item: Ast)
    requires room { vec_len items.old < vec_capacity items.old }
    ensures { trees_of items.new.items ≡ with_part (trees_of items.old.items) (tree_of item) }
{
    items.push_reserved(item);
}

/// Puts the last part after the others, where there is one.
#[tactic(auto, using(crate::proofs::Trees::trees_push))]
pub fn push_last(items: &mut Vec<Ast>, last: Option<Ast>)
    requires room { vec_len items.old < vec_capacity items.old }
    ensures parts { trees_of items.new.items ≡ with_last (trees_of items.old.items) last }
    ensures len { vec_len items.new ≤ vec_len items.old + 1 }
    ensures capacity { vec_capacity items.new ≡ vec_capacity items.old }
{
    match last {
        Some(last) => items.push_reserved(last),
        None => {}
    }
}

/// The policy of some terms and one more, the last, which is given by its factors. There is room for it among the terms.
pub fn join(terms: Vec<Ast>, factors: Vec<Ast>) -> Ast
    requires room { vec_len terms < vec_capacity terms }
    ensures { tree_of result ≡ terms_joined (trees_of terms.items) (trees_of factors.items) }
{
    let mut terms = terms;
    push(&mut terms, sequence(factors));
    sum(terms)
}

/// Puts a further term, which is given by its factors, after the others, where there is room for it. No factor is left; where there was
/// one alone its room is.
#[tactic(auto, using(crate::proofs::Trees::tree_of_seq))]
pub fn push_term(alloc: Global, terms: &mut Vec<Ast>, factors: &mut Vec<Ast>)
    requires room { vec_len terms.old < vec_capacity terms.old }
    ensures terms { trees_of terms.new.items
        ≡ with_part (trees_of terms.old.items) (seq_from (trees_of factors.old.items)) }
    ensures factors { factors.new.items ≡ [] }
{
    match take_alone(factors) {
        Some(factor) => push(terms, factor),
        None => {
            let several = replace(factors, Vec::new(alloc));
            push(terms, Ast::Seq(Asts::new(several)));
        }
    }
}

/// A policy in a box that is made.
fn filled(cell: Box<Ast>, policy: Ast) -> Box<Ast>
    ensures { result.value ≡ policy }
{
    let mut cell = cell;
    *cell = policy;
    cell
}

/// The negation of an atom, in a box that is made.
pub fn negated(cell: Box<Ast>, atom: Ast, line: u64) -> Ast
    ensures { tree_of result ≡ not_of (tree_of atom) line }
{
    Ast::Not(filled(cell, atom), line)
}

/// Takes the last of some factors, and gives it with a star over it, in a box that is made; nothing where there is none.
#[tactic(auto, using(crate::proofs::Trees::trees_push, crate::proofs::Spelled::star_last))]
pub fn star_last(cell: Box<Ast>, factors: &mut Vec<Ast>) -> Option<Ast>
    ensures { with_last (trees_of factors.new.items) result
        ≡ with_star (trees_of factors.old.items) }
{
    match factors.pop() {
        Some(factor) => Some(Ast::Star(filled(cell, factor))),
        None => None,
    }
}
