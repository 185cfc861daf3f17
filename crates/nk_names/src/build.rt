//! Policies as their `let` has them, from what is written.
ghost use Rattle.std.specs.Prelude.{◌≡◌, ◌<◌, min, IfOk};
ghost use Rattle.nk_policy.specs.Policy.{dups_of, marked_from};
ghost use Rattle.nk_policy.specs.Tree.{tree_of};
ghost use Rattle.nk_grammar.specs.Tree.{tree_of as written_of, trees_of as all_written_of};
ghost use Rattle.nk_names.specs.Body.{policy_in, policies_in, policy_of};
ghost use Rattle.nk_names.specs.Meant.{place_of_field, policy_for, policies_for};

use crate::body::{Bodies, Body, Shared, written};
use crate::check::LARGEST_PLACE;
use crate::lets::Lets;
use nk_declare::field_with;
use nk_field::{Fid, Fields};
use nk_grammar::Ast;
use nk_lex::{Ident, Number};
use nk_policy::Pol;
use std::alloc::{AllocError, Global};

/// The field with the name; the switch, where there is none.
fn field_of(fields: &Fields, w: &Ident) -> Fid
    ensures { result ≡ place_of_field fields.now w.now }
{
    match field_with(fields, w.text.as_slice()) {
        Some(field) => field,
        None => Fid::new(0),
    }
}

/// The number of a switch or a port, or the largest one.
pub(crate) fn place_of(n: Number) -> u16
    ensures { result ≡ min n.value 65535 }
{
    n.value.min(LARGEST_PLACE) as u16
}

/// The body of the tree.
#[cycle(build)]
#[tactic(auto, using(nk_grammar::proofs::Trees::tree_of_sum, nk_grammar::proofs::Trees::tree_of_seq, crate::proofs::Bodies::policy_in_sum, crate::proofs::Bodies::policy_in_seq, crate::proofs::Bodies::policy_in_name))]
fn built(alloc: Global, fields: &Fields, lets: &Lets, ast: &Ast) -> Result<Body, AllocError>
    ensures { IfOk result (λ b. policy_in b
        ≡ policy_for fields.now lets.now.entries.items (written_of ast.now)) }
{
    match ast {
        Ast::Name(w) => match lets.policy(w.text.as_slice()) {
            Some(policy) => Ok(Body::Name(policy.shared()?)),
            None => Ok(Body::Sum(Bodies::new(Vec::new(alloc)))),
        },
        Ast::Test(w, n) => Ok(Body::Test(field_of(fields, w), n.value)),
        Ast::Range(w, low, high) => Ok(Body::Range(field_of(fields, w), low.value, high.value)),
        Ast::Set(w, n) => Ok(Body::Set(field_of(fields, w), n.value)),
        Ast::Sum(ps) => Ok(Body::Sum(Bodies::new(all_built(alloc, fields, lets, ps.as_slice())?))),
        Ast::Seq(ps) => Ok(Body::Seq(Bodies::new(all_built(alloc, fields, lets, ps.as_slice())?))),
        Ast::Not(q, _) => Ok(Body::Not(Box::new(alloc, built(alloc, fields, lets, q)?)?)),
        Ast::Star(q) => Ok(Body::Star(Box::new(alloc, built(alloc, fields, lets, q)?)?)),
        Ast::Dup => Ok(Body::Dup),
        Ast::Link(a, m, b, n) => Ok(Body::Link(
            place_of(*a),
            place_of(*m),
            place_of(*b),
            place_of(*n),
        )),
    }
}

/// The body of a part. Most parts are tests, ranges and assignments, which are built here without a call.
#[cycle(build)]
#[inline(always)]
fn part_built(alloc: Global, fields: &Fields, lets: &Lets, part: &Ast) -> Result<Body, AllocError>
    ensures { IfOk result (λ b. policy_in b
        ≡ policy_for fields.now lets.now.entries.items (written_of part.now)) }
{
    match part {
        Ast::Test(w, n) => Ok(Body::Test(field_of(fields, w), n.value)),
        Ast::Range(w, low, high) => Ok(Body::Range(field_of(fields, w), low.value, high.value)),
        Ast::Set(w, n) => Ok(Body::Set(field_of(fields, w), n.value)),
        _ => built(alloc, fields, lets, part),
    }
}

/// The bodies of the parts.
#[cycle(build)]
#[tactic(auto, using(crate::proofs::Bodies::in_push, nk_policy::proofs::Trees::joined_none))]
fn all_built(
    alloc: Global,
    fields: &Fields,
    lets: &Lets,
    parts: &[Ast],
) -> Result<Vec<Body>, AllocError>
    ensures { IfOk result (λ bs. policies_in bs.items
        ≡ policies_for fields.now lets.now.entries.items (all_written_of parts.now)) }
{
    let mut out = Vec::with_capacity(alloc, parts.len())?;
    for q in parts {
        out.push(part_built(alloc, fields, lets, q)?)?;
    }
    Ok(out)
}

/// The policy of a name that stands for the tree, its dups numbered from 1. A name alone has the policy of the other name, not one
/// more: so a name in a body stands for a body that is no name, and what is written out is at least as deep as names are followed.
pub(crate) fn shared_of(
    alloc: Global,
    fields: &Fields,
    lets: &Lets,
    ast: &Ast,
) -> Result<Shared, AllocError>
    ensures { IfOk result (λ s. policy_of s
        ≡ marked_from (policy_for fields.now lets.now.entries.items (written_of ast.now)) 1) }
{
    match built(alloc, fields, lets, ast)? {
        Body::Name(policy) => Ok(policy),
        body => Shared::new(alloc, body),
    }
}

/// The policy that the tree stands for, all names written out, its dups numbered from 1.
pub(crate) fn policy_of(
    alloc: Global,
    fields: &Fields,
    lets: &Lets,
    ast: &Ast,
) -> Result<Pol, AllocError>
    requires { dups_of (policy_for fields.now lets.now.entries.items
        (written_of ast.now)) < 4294967295 }
    ensures { IfOk result (λ q. tree_of q
        ≡ marked_from (policy_for fields.now lets.now.entries.items (written_of ast.now)) 1) }
{
    let body = built(alloc, fields, lets, ast)?;
    written(alloc, &body)
}
