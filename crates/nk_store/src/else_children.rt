//! The else-child of a node: the child with the most values, and on a tie the one of the least value.
ghost use Rattle.std.specs.Prelude.{◌≡◌, ◌<◌, ℕ, length, nat_lt, if◌then◌else◌, IfOk};
ghost use Rattle.nk_store.specs.Nodes.{Rises};
ghost use Rattle.nk_store.specs.ElseChild.{spans, else_of, size_of, kept};

use crate::node::Id;
use std::alloc::{AllocError, Global};
use std::collections::HashMap;

/// Up to how many parts a node's children are compared by going over the parts once more for each.
const FEW: usize = 8;

/// Of a node's children the one with the most values, of several such the one with the least value.
/// Takes time in proportion to the parts. The only error is that memory ran out.
pub fn else_child(alloc: Global, high: u64, parts: &[(u64, Id)]) -> Result<Id, AllocError>
    requires some { 0 < length parts.now }
    requires rise { Rises high 0 parts.now }
    ensures { IfOk result (λ c. c ≡ else_of parts.now) }
{
    if parts.len() <= FEW {
        return Ok(else_of_few(high, parts));
    }
    let sizes = sizes(alloc, high, parts)?;
    let mut best = parts[0].1;
    for (_, c) in parts {
        best = larger(&sizes, best, *c);
    }
    Ok(best)
}

/// The else-child of a node of few parts.
fn else_of_few(high: u64, parts: &[(u64, Id)]) -> Id
    requires some { 0 < length parts.now }
    requires rise { Rises high 0 parts.now }
    ensures { result ≡ else_of parts.now }
{
    let mut best = parts[0].1;
    for (_, c) in parts {
        best = larger_among(high, parts, best, *c);
    }
    best
}

/// The second child where more values have it than the first.
fn larger_among(high: u64, parts: &[(u64, Id)], best: Id, c: Id) -> Id
    requires rise { Rises high 0 parts.now }
    ensures { result ≡ (if nat_lt (size_of best (spans parts.now 0)) (size_of c (spans parts.now 0))
        then c else best) }
{
    if size_among(high, parts, best) < size_among(high, parts, c) {
        c
    } else {
        best
    }
}

/// How many values have the child.
fn size_among(high: u64, parts: &[(u64, Id)], c: Id) -> u128
    requires rise { Rises high 0 parts.now }
    ensures { result ≡ size_of c (spans parts.now 0) }
{
    let mut size: u128 = 0;
    let mut from: u128 = 0;
    for (end, child) in parts {
        let next = *end as u128 + 1;
        size += values(c == *child, next - from);
        from = next;
    }
    size
}

/// The values where they count.
fn values(counts: bool, n: u128) -> u128
    ensures { result ≡ (if counts then n else 0) }
{
    if counts { n } else { 0 }
}

/// The second child where it is kept with a larger size than the first.
fn larger(sizes: &HashMap<Id, u128>, best: Id, c: Id) -> Id
    ensures { result ≡ (if nat_lt (kept sizes.now.entries best)
        (kept sizes.now.entries c) then c else best) }
{
    if size(sizes, best) < size(sizes, c) {
        c
    } else {
        best
    }
}

/// How many values each child has.
fn sizes(alloc: Global, high: u64, parts: &[(u64, Id)]) -> Result<HashMap<Id, u128>, AllocError>
    requires { Rises high 0 parts.now }
    ensures { IfOk result (λ m. (c : ℕ) → kept m.entries c ≡ size_of c (spans parts.now 0)) }
{
    let mut sizes = HashMap::new(alloc);
    let mut from: u128 = 0;
    for (end, c) in parts {
        let next = *end as u128 + 1;
        let before = size(&sizes, *c);
        sizes.insert(*c, before + (next - from))?;
        from = next;
    }
    Ok(sizes)
}

/// The number kept for a child.
fn size(sizes: &HashMap<Id, u128>, c: Id) -> u128
    ensures { result ≡ kept sizes.now.entries c }
{
    match sizes.get(&c) {
        Some(n) => *n,
        None => 0,
    }
}
