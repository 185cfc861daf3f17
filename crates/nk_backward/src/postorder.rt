//! The post-order of a depth-first search over the transitions. A place is an index into the list of transitions; it has the transitions
//! of one set at some packets.
ghost use Rattle.std.specs.Prelude.{◌≡◌, ◌<◌, IfOk, IfSome, length, IsPermutation};
ghost use Rattle.nk_backward.specs.Places.{AreAllPlaces};

use crate::transitions::Transitions;
use nk_determ::SetId;
use nk_field::List;
use std::alloc::{AllocError, Global};
use std::collections::HashMap;

/// When a search left a place: the place that the search began at, and 1 + its turn, or 0 where no search visited the place.
pub(crate) type Rank = (usize, usize);

/// The places of all transitions with their ranks, in post-order. Depth-first searches, each from the first place that no search
/// before it visited, go from a place to where its transitions lead, and leave that first where they haven't visited it before.
/// So most transitions lead to earlier places. That every place is there, and no other, is promised; the order isn't. The only
/// error is that memory ran out.
pub(crate) fn in_postorder(
    alloc: Global,
    ts: &List<Transitions>,
) -> Result<List<(Rank, usize)>, AllocError>
    ensures { IfOk result (λ order. AreAllPlaces (length ts.now) order) }
{
    let ranks = ranks_of(alloc, ts)?;
    let ranked = with_places(alloc, &ranks)?;
    Ok(by_rank(ranked))
}

/// Each rank with its place.
fn with_places(alloc: Global, ranks: &List<Rank>) -> Result<List<(Rank, usize)>, AllocError>
    ensures { IfOk result (λ all. AreAllPlaces (length ranks.now) all) }
{
    let mut all = List::new(alloc);
    for k in 0..ranks.len() {
        all.push((*ranks.at(k), k))?;
    }
    Ok(all)
}

/// Ordered by their ranks.
fn by_rank(ranked: List<(Rank, usize)>) -> List<(Rank, usize)>
    ensures { IsPermutation ranked result }
{
    let mut all = ranked.into_vec();
    all.sort_unstable();
    List::from_vec(all)
}

/// The rank of each place.
fn ranks_of(alloc: Global, ts: &List<Transitions>) -> Result<List<Rank>, AllocError>
    ensures { IfOk result (λ ranks. length ranks ≡ length ts.now) }
{
    let places = SetPlaces::new(alloc, ts)?;
    let mut ranks = List::from_vec(vec![in alloc; (0, 0); ts.len()]?);
    for k in 0..ts.len() {
        search_from(alloc, ts, &places, k, &mut ranks)?;
    }
    Ok(ranks)
}

/// The places of each set's transitions.
#[derive(Drop)]
struct SetPlaces {
    /// By set its first place.
    first: HashMap<SetId, usize>,
    /// By place the next one of the same set, if there is one.
    next: List<Option<usize>>,
}

impl SetPlaces {
    fn new(alloc: Global, ts: &List<Transitions>) -> Result<SetPlaces, AllocError> {
        let mut first = HashMap::new(alloc);
        let mut next = List::from_vec(vec![in alloc; None; ts.len()]?);
        for k in 0..ts.len() {
            let j = ts.len() - 1 - k;
            let later = first.insert(ts.at(j).source, j)?;
            next.put(j, later);
        }
        Ok(SetPlaces { first, next })
    }
}

/// Gives the places that a search visits their ranks. The path has the places that the search has visited and not left, each with
/// how many of its outs are done.
fn search_from(
    alloc: Global,
    ts: &List<Transitions>,
    places: &SetPlaces,
    from: usize,
    ranks: &mut List<Rank>,
) -> Result<(), AllocError>
    requires from { from < length ts.now }
    requires ranks { length ranks.old ≡ length ts.now }
    ensures { length ranks.new ≡ length ranks.old }
{
    if ranks.at(from).1 != 0 {
        return Ok(());
    }
    set_rank(ranks, from, (from, 1));
    let mut path = Vec::new(alloc);
    path.push((from, 0))?;
    for turn in 0..usize::MAX {
        let Some((k, done)) = path.pop() else {
            return Ok(());
        };
        match unvisited_after(ts, places, ranks, k, done) {
            Some((next, count)) => {
                set_rank(ranks, next, (from, 1));
                path.push((k, count))?;
                path.push((next, 0))?;
            }
            None => set_rank(ranks, k, (from, turn + 1)),
        }
    }
    Ok(())
}

/// Gives a place this rank, if the place is one of those that have ranks.
fn set_rank(ranks: &mut List<Rank>, k: usize, rank: Rank)
    ensures { length ranks.new ≡ length ranks.old }
{
    if k < ranks.len() {
        ranks.put(k, rank);
    }
}

/// A place without a rank that comes after a place: the next one of the same set, or else one to which an out leads that isn't done; and
/// how many outs are done then.
fn unvisited_after(
    ts: &List<Transitions>,
    places: &SetPlaces,
    ranks: &List<Rank>,
    k: usize,
    done: usize,
) -> Option<(usize, usize)> {
    if k >= ts.len() {
        return None;
    }
    if let Some(next) = next_of(places, ranks, k) {
        return Some((next, done));
    }
    let outs = &ts.at(k).outs;
    for i in done..outs.len() {
        if let Some(next) = place_of_target(outs.at(i).out.target, places, ranks) {
            return Some((next, i + 1));
        }
    }
    None
}

/// The next place of the same set, if it has no rank.
fn next_of(places: &SetPlaces, ranks: &List<Rank>, k: usize) -> Option<usize> {
    if k >= places.next.len() {
        return None;
    }
    match *places.next.at(k) {
        Some(next) if has_no_rank(ranks, next) => Some(next),
        _ => None,
    }
}

/// The first place of the set that a target stands for, if it has no rank.
fn place_of_target(target: u64, places: &SetPlaces, ranks: &List<Rank>) -> Option<usize> {
    if target == 0 {
        return None;
    }
    match places.first.get(&SetId::from_target(target)).copied() {
        Some(next) if has_no_rank(ranks, next) => Some(next),
        _ => None,
    }
}

/// Whether it is a place without a rank.
fn has_no_rank(ranks: &List<Rank>, k: usize) -> bool {
    k < ranks.len() && ranks.at(k).1 == 0
}
