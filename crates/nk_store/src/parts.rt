//! Parts of a node: pairs of an interval's upper end and its child, in order.
ghost use Rattle.std.specs.Prelude.{◌≡◌, ◌<◌, length, true, IfOk};
ghost use Rattle.nk_store.specs.Nodes.{child_at, joined};

use crate::node::Id;
use nk_field::List;
use std::alloc::{AllocError, Global};

/// The child of the part that holds the value.
pub fn part_child(parts: &[(u64, Id)], value: u64) -> Id
    requires { 0 < length parts.now }
    ensures { result ≡ child_at 0 parts.now value }
{
    let mut child = parts[0].1;
    for (end, c) in parts {
        if value <= *end {
            return *c;
        }
        child = *c;
    }
    child
}

/// The parts with neighbours of one child joined; where there are none, these parts themselves.
pub(crate) fn in_whole(alloc: Global, parts: List<(u64, Id)>) -> Result<List<(u64, Id)>, AllocError>
    ensures { IfOk result (λ kept. kept ≡ joined parts) }
{
    if are_apart(parts.as_slice()) {
        return Ok(parts);
    }
    join_neighbours(alloc, &parts)
}

/// Whether neighbours have different children.
fn are_apart(parts: &[(u64, Id)]) -> bool
    ensures { result ≡ true → joined parts.now ≡ parts.now }
{
    for i in 1..parts.len() {
        if parts[i - 1].1 == parts[i].1 {
            return false;
        }
    }
    true
}

/// The parts with neighbours that have one child joined: the last part of each run of such parts stays. The only error is
/// that memory ran out.
pub fn join_neighbours(
    alloc: Global,
    parts: &List<(u64, Id)>,
) -> Result<List<(u64, Id)>, AllocError>
    ensures { IfOk result (λ kept. kept ≡ joined parts.now) }
{
    let mut kept = List::with_capacity(alloc, runs(parts.as_slice()))?;
    let n = parts.len();
    for i in 0..n {
        let part = *parts.at(i);
        if i + 1 == n || parts.at(i + 1).1 != part.1 {
            kept.push(part)?;
        }
    }
    Ok(kept)
}

/// How many runs of parts with one child there are.
fn runs(parts: &[(u64, Id)]) -> usize {
    let mut count = 1usize;
    for i in 1..parts.len() {
        if parts[i - 1].1 != parts[i].1 {
            count = count.saturating_add(1);
        }
    }
    count
}
