//! The star of a diagram.
ghost use Rattle.std.specs.Prelude.{ℕ, ◌≤◌, ◌↔◌, [], ◌∷◌, IfOk, List as Items, length, Contains};
ghost use Rattle.nk_store.specs.StoreState.{IsId, IsWhole, IsStorePacket, look, root_field, Grows, HasLeaves};
ghost use Rattle.nk_store.specs.Operations.{lacking};
ghost use Rattle.nk_apply.specs.Leaves.{merged};
ghost use Rattle.nk_apply.specs.Seqs.{no_out};
ghost use Rattle.nk_apply.specs.Unions.{AreIds, unions};
ghost use Rattle.nk_apply.specs.Predicates.{IsPredicate, HasOnlyFinals};
ghost use Rattle.nk_star.specs.Steps.{Steps, IsLastRound, AreTogether};
ghost use Rattle.nk_star.specs.Leading.{Makes, Leads};

use crate::differences::missing;
use nk_algebra::{empty, identity, seq, union, union_all};
use nk_field::List;
use nk_store::{Id, Store};
use std::alloc::AllocError;

/// All that any number of copies of a diagram make, one after another; for none that is the packet itself. The diagram's
/// outs have target 0, and so have those of the answer. The only error is that memory ran out.
pub fn star(st: &mut Store, d: Id) -> Result<Id, AllocError>
    requires id { IsId st.old d }
    requires ends { HasOnlyFinals (look st.old d) }
    ensures grows { Grows st.old st.new }
    ensures id { IfOk result (λ r. IsId st.new r) }
    ensures ends { IfOk result (λ r. HasOnlyFinals (look st.new r)) }
    ensures steps { IfOk result (λ r. (pk : Items ℕ) (g : Items (ℕ × ℕ)) → IsWhole pk →
        Contains (look st.new r pk) (record { act = g; target = 0 }) ↔
        ((n : ℕ) × Steps (look st.old d) n pk g)) }
    ensures leads { IfOk result (λ r. (pk y : Items ℕ) → IsWhole pk →
        Makes (look st.new r) pk y ↔ ((n : ℕ) × Leads (look st.old d) n pk y)) }
    ensures predicate { IfOk result
        (λ r. IsPredicate st.old d → HasLeaves st.new r (λ pk. no_out ∷ [])) }
    ensures later { IfOk result (λ r. root_field st.old d ≤ root_field st.new r) }
{
    let all = last_round(st, d)?;
    st.laws();
    Ok(all)
}

/// Rounds of one copy more, until one adds nothing. Only the outs that the last round added are followed by a copy,
/// since what the earlier ones lead to is there. What the rounds added is kept in a few diagrams, which are put together
/// at the end: so an out is copied once for each time that the number of rounds doubles, and not once for each round.
fn last_round(st: &mut Store, d: Id) -> Result<Id, AllocError>
    requires id { IsId st.old d }
    requires ends { HasOnlyFinals (look st.old d) }
    ensures grows { Grows st.old st.new }
    ensures ok { IfOk result (λ r. IsLastRound st.new r (look st.old d)) }
{
    let nothing = empty(st)?;
    let mut fresh = identity(st)?;
    let mut all = List::new(st.alloc());
    all.push(fresh)?;
    // One item for each round: their number has no bound that a machine number holds.
    let mut rounds = List::new(st.alloc());
    loop {
        let more = seq(st, fresh, d)?;
        let new = missing_all(st, more, all.as_slice())?;
        st.laws();
        if st.same(new, nothing) {
            let last = union_all(st, all.as_slice())?;
            return Ok(last);
        }
        rounds.push(new)?;
        let next = put_to(st, all.as_slice(), new, rounds.len())?;
        all = next;
        fresh = new;
    }
}

/// The outs of a diagram that all of these lack.
fn missing_all(st: &mut Store, d: Id, all: &[Id]) -> Result<Id, AllocError>
    requires id { IsId st.old d }
    requires ids { AreIds st.old all.now }
    ensures grows { Grows st.old st.new }
    ensures ok { IfOk result
        (λ r. HasLeaves st.new r
        (λ pk. lacking (look st.old d pk) (unions st.old all.now 0 (length all.now) pk))) }
{
    st.laws();
    let mut rest = d;
    for k in 0..all.len() {
        let one = all[k];
        let less = missing(st, rest, one)?;
        rest = less;
    }
    Ok(rest)
}

/// These diagrams and one more, the last of them put together: after n rounds there are the first one and one for each
/// bit of n that is set.
fn put_to(st: &mut Store, all: &[Id], new: Id, n: usize) -> Result<List<Id>, AllocError>
    requires ids { AreIds st.old all.now }
    requires id { IsId st.old new }
    ensures grows { Grows st.old st.new }
    ensures ok { IfOk result
        (λ r. AreTogether st.new r
        (λ pk. merged (unions st.old all.now 0 (length all.now) pk) (look st.old new pk))) }
{
    let kept = (n.count_ones() as usize).min(all.len());
    let (first, following) = all.split_at(kept);
    st.laws();
    let last = from_the_last(st, following, new)?;
    st.laws();
    let mut next = List::from_vec(Vec::from_slice(st.alloc(), first)?);
    next.push(last)?;
    Ok(next)
}

/// These diagrams and one more together, from the last of them on: that has the fewest outs, so few are copied twice.
fn from_the_last(st: &mut Store, ds: &[Id], d: Id) -> Result<Id, AllocError>
    requires ids { AreIds st.old ds.now }
    requires id { IsId st.old d }
    ensures grows { Grows st.old st.new }
    ensures ok { IfOk result
        (λ r. HasLeaves st.new r
        (λ pk. merged (unions st.old ds.now 0 (length ds.now) pk) (look st.old d pk))) }
{
    st.laws();
    let mut all = d;
    let mut k = ds.len();
    while k > 0 {
        k -= 1;
        let more = union(st, ds[k], all)?;
        all = more;
    }
    Ok(all)
}

/// States a law, and does nothing: what a diagram makes of a packet of the fields is a packet of the fields too.
pub fn laws(st: &Store)
    ensures { (d : ℕ) (pk y : Items ℕ) → IsStorePacket st.now pk → Makes (look st.now d) pk y
        → IsStorePacket st.now y }
{
    st.laws();
}
