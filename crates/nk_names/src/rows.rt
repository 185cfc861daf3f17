//! The predicates of a certificate's rows.
ghost use Rattle.std.specs.Prelude.{◌≡◌, MatchResult, IfOk};
ghost use Rattle.nk_policy.specs.Tree.{tree_of};
ghost use Rattle.nk_grammar.specs.Tree.{tree_of as written_of};
ghost use Rattle.nk_names.specs.ProgramOf.{NamesReturns, predicate_fault, row_policy};
ghost use Rattle.nk_names.specs.ProgramValue.{IsRowPolicy};

use crate::Program;
use crate::build::policy_of;
use crate::check::{depth, fault_if, first_unknown, is_predicate};
use crate::declare::{LARGEST_DEPTH, refuse};
use crate::fault::{FaultKind, NamesError};
use crate::lets::Lets;
use nk_field::Fields;
use nk_grammar::Ast;
use nk_policy::Pol;
use std::alloc::Global;

/// Whether the tree is a predicate that can be written out.
fn check_predicate(fields: &Fields, lets: &Lets, ast: &Ast, line: u64) -> Result<(), NamesError>
    ensures { MatchResult result
        (λ _. predicate_fault fields.now lets.now.entries.items (written_of ast.now) line ≡ None)
        (λ e. predicate_fault fields.now lets.now.entries.items (written_of ast.now) line
        ≡ Some e) }
{
    refuse(first_unknown(fields, lets, ast))?;
    let kept = is_predicate(fields, lets, ast);
    refuse(fault_if(!kept, FaultKind::NotAPredicate, line))?;
    let deep = LARGEST_DEPTH < depth(fields, lets, ast);
    refuse(fault_if(deep, FaultKind::TooDeep, line))
}

/// The predicate that a row of a certificate has over these fields, or the first fault of its tree.
pub(crate) fn resolve_over(
    alloc: Global,
    fields: &Fields,
    ast: &Ast,
    line: u64,
) -> Result<Pol, NamesError>
    ensures policy { NamesReturns tree_of result (row_policy fields.now (written_of ast.now) line) }
    ensures is { IfOk result (λ q. IsRowPolicy fields.now (tree_of q)) }
{
    let lets = Lets::new(alloc);
    let _declared = fields.declared();
    check_predicate(fields, &lets, ast, line)?;
    Ok(policy_of(alloc, fields, &lets, ast)?)
}

/// The predicate that a row of a certificate has, or the first fault of its tree.
///
/// The word `row` stands on `line`. The fields are those of the program, and no policy's name is known. The faults are
/// looked for in this order: an unknown name, an unknown field or a value out of range, the first from left to right; a
/// tree that is no predicate, at `line`, also where a `~` in it stands over no predicate; one that is more than 256 deep,
/// at `line`.
pub fn resolve(alloc: Global, p: &Program, ast: &Ast, line: u64) -> Result<Pol, NamesError>
    ensures policy { NamesReturns tree_of result
        (row_policy p.now.fields (written_of ast.now) line) }
    ensures is { IfOk result (λ q. IsRowPolicy p.now.fields (tree_of q)) }
{
    resolve_over(alloc, &p.fields, ast, line)
}
