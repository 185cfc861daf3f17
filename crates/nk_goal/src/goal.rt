//! What ends the levels.
ghost use Rattle.std.specs.Prelude.{◌≡◌, ◌⊎◌, ℕ, ◌<◌, [], IfOk, OnOk, true, false, length, slice_index_or, Contains, List as Items};
ghost use Rattle.nk_store.specs.declared.node.Out.{Out};
ghost use Rattle.nk_store.specs.StoreState.{StoreState, IsWhole, Grows, HasLeaves};
ghost use Rattle.nk_sets.specs.PacketSets.{IsSet};
ghost use Rattle.nk_determ.specs.Pairs.{AreLabelsBelow, ArePairs};
ghost use Rattle.nk_goal.specs.Goals.{MeetsViolation, MeetsNoViolation, PairHasViolation, PairHasNoViolation};

use nk_determ::{SetId, Sets};
use nk_field::List;
use nk_sets::{at_packets, is_empty};
use nk_store::{Id, Store};
use std::alloc::AllocError;

/// The finals that a set state must not have: for each set of labels and each packet some outs, which the members of the
/// set alone decide. The target of each is 0 where there is one side or it is the left side's, and 1 where it is the
/// right side's.
pub trait Goal {
    /// The goal is for this store; it stays so while the store grows.
    ghost fits: { Self → StoreState → Type 0 };

    /// How many labels the goal knows, 0 among them.
    ghost labels: { Self → ℕ };

    /// The violations of a set of labels at a packet, read in a store.
    ghost violations_of: { Self → StoreState → Items ℕ → Items ℕ → Items Out };

    /// The diagram of the violations of a set. The only error is that memory ran out; then the store has only grown, and
    /// nothing is said of the goal.
    fn bad(&mut self, st: &mut Store, ss: &Sets, s: SetId) -> Result<Id, AllocError>
        requires fits { fits self.old st.old }
        requires set { s < length ss.now }
        requires places { AreLabelsBelow (labels self.old) (slice_index_or ss.now s []) }
        ensures grows { Grows st.old st.new }
        ensures ok { IfOk result
            (λ d. HasLeaves st.new d
            (λ pk. violations_of self.old st.old (slice_index_or ss.now s []) pk)) }
        ensures fits { OnOk result (fits self.new st.new) }
        ensures labels { OnOk result (labels self.new ≡ labels self.old) }
        ensures same { OnOk result
            ((st : StoreState) (set pk : Items ℕ)
            → violations_of self.new st set pk ≡ violations_of self.old st set pk) };

    ghost fits_on: { (g : Self) (old new : StoreState) → fits g old → Grows old new → fits g new };

    ghost violations_grow: { (g : Self) (old new : StoreState) (set pk : Items ℕ) → fits g old → Grows old new →
        AreLabelsBelow (labels g) set → violations_of g new set pk ≡ violations_of g old set pk };

    ghost sided: { (g : Self) (st : StoreState) (set pk : Items ℕ) (o : Out) → fits g st → IsWhole pk →
        Contains (violations_of g st set pk) o → (o.target ≡ 0) ⊎ (o.target ≡ 1) };
}

/// Whether a level has a violation. The only error is that memory ran out; then the store has only grown, and nothing is
/// said of the goal.
pub fn any_violation<G: Goal>(
    st: &mut Store,
    ss: &Sets,
    level: &List<(SetId, Id)>,
    g: &mut G,
) -> Result<bool, AllocError>
    requires fits { G.fits g.old st.old }
    requires pairs { ArePairs st.old ss.now (G.labels g.old) level.now }
    ensures grows { Grows st.old st.new }
    ensures yes { IfOk result
        (λ b. b ≡ true → MeetsViolation st.old ss.now level.now (G.violations_of g.old st.old)) }
    ensures no { IfOk result
        (λ b. b ≡ false → MeetsNoViolation st.old ss.now level.now (G.violations_of g.old st.old)) }
    ensures fits { OnOk result (G.fits g.new st.new) }
    ensures labels { OnOk result (G.labels g.new ≡ G.labels g.old) }
    ensures same { OnOk result
        ((st : StoreState) (set pk : Items ℕ)
        → G.violations_of g.new st set pk ≡ G.violations_of g.old st set pk) }
{
    for i in 0..level.len() {
        let (s, x) = *level.at(i);
        if pair_violation(st, ss, s, x, g)? {
            return Ok(true);
        }
    }
    Ok(false)
}

/// Whether a set has a violation at one of the packets.
fn pair_violation<G: Goal>(
    st: &mut Store,
    ss: &Sets,
    s: SetId,
    x: Id,
    g: &mut G,
) -> Result<bool, AllocError>
    requires fits { G.fits g.old st.old }
    requires set { s < length ss.now }
    requires places { AreLabelsBelow (G.labels g.old) (slice_index_or ss.now s []) }
    requires packets { IsSet st.old x }
    ensures grows { Grows st.old st.new }
    ensures yes { IfOk result
        (λ b. b ≡ true → PairHasViolation st.old x
        (G.violations_of g.old st.old (slice_index_or ss.now s []))) }
    ensures no { IfOk result
        (λ b. b ≡ false → PairHasNoViolation st.old x
        (G.violations_of g.old st.old (slice_index_or ss.now s []))) }
    ensures fits { OnOk result (G.fits g.new st.new) }
    ensures labels { OnOk result (G.labels g.new ≡ G.labels g.old) }
    ensures same { OnOk result
        ((st : StoreState) (set pk : Items ℕ)
        → G.violations_of g.new st set pk ≡ G.violations_of g.old st set pk) }
{
    let b = g.bad(st, ss, s)?;
    let met = at_packets(st, x, b)?;
    Ok(!is_empty(st, met))
}
