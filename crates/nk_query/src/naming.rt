//! The question of a query about a program's policies.
ghost use Rattle.std.specs.Prelude.{IfOk};
ghost use Rattle.nk_policy.specs.Tree.{tree_of};
ghost use Rattle.nk_query.specs.Asked.{apart as asks_apart, waypoint as asks_waypoint};
ghost use Rattle.nk_query.specs.Answers.{asked_in, IsQuestion, IsFitFor};

use crate::building::{apart, waypoint};
use crate::error::QueryError;
use crate::query::Query;
use nk_names::Program;
use nk_policy::Pol;
use std::alloc::Global;

/// The question of a query: the policy whose histories are exactly those that break the query, its dups numbered from 1
/// in text order. For `apart` it is the sequence of `from`, the policy and `target`; for `waypoint` that of `from`, the
/// complement of `middle`, the policy with each link literal written out and the complement before each dup, the
/// complement once more, and `target` (reachability and waypoints by one policy: Anderson et al., POPL 2014). It may be
/// more than 256 deep. The first of these is refused: a name that is no policy's; a policy that has to be a predicate and
/// isn't one; a question with more than 1,048,576 elements. The only other error is that memory ran out.
pub fn question(alloc: Global, program: &Program, query: &Query) -> Result<Pol, QueryError>
    ensures is { IsQuestion program.now (asked_in query.now) result }
    ensures fit { IfOk result (λ q. IsFitFor program.now.fields (tree_of q)) }
{
    match query {
        Query::Apart { name, from, target } => named_apart(alloc, program, name, from, target),
        Query::Waypoint {
            name,
            from,
            middle,
            target,
        } => named_waypoint(alloc, program, name, from, middle, target),
    }
}

/// The question of `apart` for policies of these names.
fn named_apart(
    alloc: Global,
    program: &Program,
    name: &str,
    from: &str,
    target: &str,
) -> Result<Pol, QueryError>
    ensures is { IsQuestion program.now (asks_apart name.now from.now target.now) result }
    ensures fit { IfOk result (λ q. IsFitFor program.now.fields (tree_of q)) }
{
    let Some(over) = program.find(name) else {
        return Err(QueryError::NoPolicy);
    };
    let Some(start) = program.find(from) else {
        return Err(QueryError::NoPolicy);
    };
    let Some(end) = program.find(target) else {
        return Err(QueryError::NoPolicy);
    };
    let p = over.written(alloc)?;
    let a = start.written(alloc)?;
    let b = end.written(alloc)?;
    apart(alloc, p, a, b)
}

/// The question of `waypoint` for policies of these names.
fn named_waypoint(
    alloc: Global,
    program: &Program,
    name: &str,
    from: &str,
    middle: &str,
    target: &str,
) -> Result<Pol, QueryError>
    ensures is { IsQuestion program.now
        (asks_waypoint name.now from.now middle.now target.now) result }
    ensures fit { IfOk result (λ q. IsFitFor program.now.fields (tree_of q)) }
{
    let Some(over) = program.find(name) else {
        return Err(QueryError::NoPolicy);
    };
    let Some(start) = program.find(from) else {
        return Err(QueryError::NoPolicy);
    };
    let Some(way) = program.find(middle) else {
        return Err(QueryError::NoPolicy);
    };
    let Some(end) = program.find(target) else {
        return Err(QueryError::NoPolicy);
    };
    let p = over.written(alloc)?;
    let a = start.written(alloc)?;
    let m = way.written(alloc)?;
    let b = end.written(alloc)?;
    waypoint(alloc, p, a, &m, b)
}
