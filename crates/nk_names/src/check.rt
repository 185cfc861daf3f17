//! What may be wrong with a policy as it is written, and how large it is with its names written out.
ghost use Rattle.std.specs.Prelude.{◌≡◌, min};
ghost use Rattle.nk_policy.specs.Policy.{depth_of, depths_of, size_of, sizes_of, is_predicate, are_predicates};
ghost use Rattle.nk_grammar.specs.Tree.{tree_of, trees_of};
ghost use Rattle.nk_names.specs.Meant.{text_fault_if, value_above, no_value, no_range, literal_ends, policy_for, policies_for, unknown_in, unknown_among, misplaced_in, misplaced_among};

use crate::fault::{FaultKind, NamesError};
use crate::lets::Lets;
use nk_declare::{DeclareFault, field_with};
use nk_field::Fields;
use nk_grammar::Ast;
use nk_lex::{Ident, Number};

/// The last u64, at which depths and sizes stop.
const LAST: u64 = u64::MAX;

/// The largest number of a switch and of a port.
pub(crate) const LARGEST_PLACE: u64 = 65_535;

/// The fault of this kind, where something is wrong.
pub(crate) fn fault_if(wrong: bool, kind: FaultKind, line: u64) -> Option<NamesError>
    ensures { result ≡ text_fault_if wrong kind line }
{
    if wrong {
        Some(NamesError::Fault { kind, line })
    } else {
        None
    }
}

/// The fault of a number above `most`.
fn above(most: u64, n: Number) -> Option<NamesError>
    ensures { result ≡ value_above most n }
{
    fault_if(
        most < n.value,
        FaultKind::Common(DeclareFault::ValueOutOfRange),
        n.line,
    )
}

/// The first number of a link that no switch and no port has.
pub(crate) fn first_above(a: Number, m: Number, b: Number, n: Number) -> Option<NamesError>
    ensures { result ≡ literal_ends a m b n }
{
    above(LARGEST_PLACE, a)
        .or(above(LARGEST_PLACE, m))
        .or(above(LARGEST_PLACE, b))
        .or(above(LARGEST_PLACE, n))
}

/// The fault of a field and its value.
fn no_value(fields: &Fields, w: &Ident, n: Number) -> Option<NamesError>
    ensures { result ≡ no_value fields.now w.now n }
{
    match field_with(fields, w.text.as_slice()) {
        Some(field) => above(fields.max(field), n),
        None => fault_if(true, FaultKind::UnknownField, w.line),
    }
}

/// The first fault of a field and the two ends of a range of its values; the first may be above the second.
fn no_range(fields: &Fields, w: &Ident, low: Number, high: Number) -> Option<NamesError>
    ensures { result ≡ no_range fields.now w.now low high }
{
    match field_with(fields, w.text.as_slice()) {
        Some(field) => {
            let most = fields.max(field);
            above(most, low).or(above(most, high))
        }
        None => fault_if(true, FaultKind::UnknownField, w.line),
    }
}

/// The first name of no policy, name of no field or number out of range, from left to right.
#[cycle(unknown)]
#[tactic(auto, using(nk_grammar::proofs::Trees::tree_of_sum, nk_grammar::proofs::Trees::tree_of_seq))]
pub(crate) fn first_unknown(fields: &Fields, lets: &Lets, ast: &Ast) -> Option<NamesError>
    ensures { result ≡ unknown_in fields.now lets.now.entries.items (tree_of ast.now) }
{
    match ast {
        Ast::Name(w) => {
            let known = lets.policy(w.text.as_slice()).is_some();
            fault_if(!known, FaultKind::UnknownName, w.line)
        }
        Ast::Test(w, n) | Ast::Set(w, n) => no_value(fields, w, *n),
        Ast::Range(w, low, high) => no_range(fields, w, *low, *high),
        Ast::Sum(ps) | Ast::Seq(ps) => first_unknown_among(fields, lets, ps.as_slice()),
        Ast::Not(q, _) | Ast::Star(q) => first_unknown(fields, lets, q),
        Ast::Dup => None,
        Ast::Link(a, m, b, n) => first_above(*a, *m, *b, *n),
    }
}

/// The first name of no policy, name of no field or number out of range in a part. Most parts are tests, ranges and
/// assignments, which are checked here without a call.
#[cycle(unknown)]
#[inline(always)]
fn first_unknown_part(fields: &Fields, lets: &Lets, part: &Ast) -> Option<NamesError>
    ensures { result ≡ unknown_in fields.now lets.now.entries.items (tree_of part.now) }
{
    match part {
        Ast::Test(w, n) | Ast::Set(w, n) => no_value(fields, w, *n),
        Ast::Range(w, low, high) => no_range(fields, w, *low, *high),
        _ => first_unknown(fields, lets, part),
    }
}

/// The first name of no policy, name of no field or number out of range in the parts, from left to right.
#[cycle(unknown)]
fn first_unknown_among(fields: &Fields, lets: &Lets, parts: &[Ast]) -> Option<NamesError>
    ensures { result ≡ unknown_among fields.now lets.now.entries.items (trees_of parts.now) }
{
    for q in parts {
        let fault = first_unknown_part(fields, lets, q);
        if fault.is_some() {
            return fault;
        }
    }
    None
}

/// Whether it is a predicate with its names written out.
#[cycle(predicate)]
#[tactic(auto, using(nk_grammar::proofs::Trees::tree_of_sum, nk_grammar::proofs::Trees::tree_of_seq))]
pub(crate) fn is_predicate(fields: &Fields, lets: &Lets, ast: &Ast) -> bool
    ensures { result ≡ is_predicate
        (policy_for fields.now lets.now.entries.items (tree_of ast.now)) }
{
    match ast {
        Ast::Name(w) => match lets.shape(w.text.as_slice()) {
            Some(shape) => shape.predicate,
            None => true,
        },
        Ast::Test(_, _) | Ast::Range(_, _, _) => true,
        Ast::Sum(ps) | Ast::Seq(ps) => are_predicates(fields, lets, ps.as_slice()),
        Ast::Not(q, _) => is_predicate(fields, lets, q),
        Ast::Set(_, _) | Ast::Star(_) | Ast::Dup | Ast::Link(_, _, _, _) => false,
    }
}

/// Whether each part is one.
#[cycle(predicate)]
fn are_predicates(fields: &Fields, lets: &Lets, parts: &[Ast]) -> bool
    ensures { result ≡ are_predicates
        (policies_for fields.now lets.now.entries.items (trees_of parts.now)) }
{
    for q in parts {
        if !is_predicate(fields, lets, q) {
            return false;
        }
    }
    true
}

/// The first `~` over what is no predicate.
#[cycle(misplaced)]
#[tactic(auto, using(nk_grammar::proofs::Trees::tree_of_sum, nk_grammar::proofs::Trees::tree_of_seq))]
pub(crate) fn first_misplaced(fields: &Fields, lets: &Lets, ast: &Ast) -> Option<NamesError>
    ensures { result ≡ misplaced_in fields.now lets.now.entries.items (tree_of ast.now) }
{
    match ast {
        Ast::Sum(ps) | Ast::Seq(ps) => first_misplaced_among(fields, lets, ps.as_slice()),
        Ast::Not(q, line) => {
            let negated = is_predicate(fields, lets, q);
            fault_if(!negated, FaultKind::NotAPredicate, *line)
        }
        Ast::Star(q) => first_misplaced(fields, lets, q),
        Ast::Name(_)
        | Ast::Test(_, _)
        | Ast::Range(_, _, _)
        | Ast::Set(_, _)
        | Ast::Dup
        | Ast::Link(_, _, _, _) => None,
    }
}

/// The first `~` over what is no predicate in the parts.
#[cycle(misplaced)]
fn first_misplaced_among(fields: &Fields, lets: &Lets, parts: &[Ast]) -> Option<NamesError>
    ensures { result ≡ misplaced_among fields.now lets.now.entries.items (trees_of parts.now) }
{
    for q in parts {
        match q {
            Ast::Test(_, _) | Ast::Range(_, _, _) | Ast::Set(_, _) => {}
            _ => {
                let fault = first_misplaced(fields, lets, q);
                if fault.is_some() {
                    return fault;
                }
            }
        }
    }
    None
}

/// The depth with all names written out, at most the last u64.
#[cycle(depth)]
#[tactic(auto, using(nk_grammar::proofs::Trees::tree_of_sum, nk_grammar::proofs::Trees::tree_of_seq))]
pub(crate) fn depth(fields: &Fields, lets: &Lets, ast: &Ast) -> u64
    ensures { result ≡ min (depth_of
        (policy_for fields.now lets.now.entries.items (tree_of ast.now))) LAST }
{
    match ast {
        Ast::Name(w) => match lets.shape(w.text.as_slice()) {
            Some(shape) => shape.depth,
            None => 1,
        },
        Ast::Sum(ps) | Ast::Seq(ps) => deepest(fields, lets, ps.as_slice()).saturating_add(1),
        Ast::Not(q, _) | Ast::Star(q) => depth(fields, lets, q).saturating_add(1),
        Ast::Test(_, _) | Ast::Range(_, _, _) | Ast::Set(_, _) | Ast::Dup | Ast::Link(_, _, _, _) =>
            1,
    }
}

/// The depth of the deepest part, 0 where there is none.
#[cycle(depth)]
fn deepest(fields: &Fields, lets: &Lets, parts: &[Ast]) -> u64
    ensures { result ≡ min (depths_of
        (policies_for fields.now lets.now.entries.items (trees_of parts.now))) LAST }
{
    let mut most: u64 = 0;
    for q in parts {
        let below = match q {
            Ast::Test(_, _) | Ast::Range(_, _, _) | Ast::Set(_, _) => 1,
            _ => depth(fields, lets, q),
        };
        if most < below {
            most = below;
        }
    }
    most
}

/// How many elements it has with all names written out, at most the last u64.
#[cycle(size)]
#[tactic(auto, using(nk_grammar::proofs::Trees::tree_of_sum, nk_grammar::proofs::Trees::tree_of_seq))]
pub(crate) fn size(fields: &Fields, lets: &Lets, ast: &Ast) -> u64
    ensures { result ≡ min (size_of
        (policy_for fields.now lets.now.entries.items (tree_of ast.now))) LAST }
{
    match ast {
        Ast::Name(w) => match lets.shape(w.text.as_slice()) {
            Some(shape) => shape.size,
            None => 1,
        },
        Ast::Sum(ps) | Ast::Seq(ps) => total_size(fields, lets, ps.as_slice()).saturating_add(1),
        Ast::Not(q, _) | Ast::Star(q) => size(fields, lets, q).saturating_add(1),
        Ast::Test(_, _) | Ast::Range(_, _, _) | Ast::Set(_, _) | Ast::Dup | Ast::Link(_, _, _, _) =>
            1,
    }
}

/// How many elements the parts have.
#[cycle(size)]
fn total_size(fields: &Fields, lets: &Lets, parts: &[Ast]) -> u64
    ensures { result ≡ min (sizes_of
        (policies_for fields.now lets.now.entries.items (trees_of parts.now))) LAST }
{
    let mut total: u64 = 0;
    for q in parts {
        total = match q {
            Ast::Test(_, _) | Ast::Range(_, _, _) | Ast::Set(_, _) => total.saturating_add(1),
            _ => total.saturating_add(size(fields, lets, q)),
        };
    }
    total
}
