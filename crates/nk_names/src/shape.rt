//! What the checks of a policy want to know of the policies that it names.
ghost use Rattle.std.specs.Prelude.{◌≡◌};
ghost use Rattle.nk_grammar.specs.Tree.{tree_of};
ghost use Rattle.nk_names.specs.Meant.{policy_for};
ghost use Rattle.nk_names.specs.Shape.{shape_of};

use crate::check::{depth, is_predicate, size};
use crate::lets::Lets;
use nk_field::Fields;
use nk_grammar::Ast;

/// The depth and the size of a policy, each at most the last u64, and whether it is a predicate.
#[derive(Clone, Copy)]
pub(crate) struct Shape {
    pub(crate) depth: u64,
    pub(crate) size: u64,
    pub(crate) predicate: bool,
}

impl Shape {
    /// What is known of the policy that the tree stands for.
    pub(crate) fn of(fields: &Fields, lets: &Lets, ast: &Ast) -> Shape
        ensures { result ≡ shape_of
            (policy_for fields.now lets.now.entries.items (tree_of ast.now)) }
    {
        Shape {
            depth: depth(fields, lets, ast),
            size: size(fields, lets, ast),
            predicate: is_predicate(fields, lets, ast),
        }
    }
}
