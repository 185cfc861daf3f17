//! Ends off edge ports: what ends the levels of a policy's automaton.
ghost use Rattle.std.specs.Prelude.{◌≡◌, ◌<◌, ◌∷◌, [], Some, All, IfOk, OnOk, map, length, slice_index};
ghost use Rattle.nk_store.specs.StoreState.{IsId, Grows, HasLeaves, look};
ghost use Rattle.nk_apply.specs.Unions.{AreIds};
ghost use Rattle.nk_sets.specs.PacketSets.{IsSet};
ghost use Rattle.nk_determ.specs.Targets.{retargeted};
ghost use Rattle.nk_compile.specs.WrongEnds.{IsEndOf, AreEndsOf, HaveEndsOf, wrong_leaf, ends_on, wrong_on, wrong_sided};

use nk_algebra::{Memo, known, seq, union_all};
use nk_determ::{SetId, Sets, retarget};
use nk_field::List;
use nk_goal::Goal;
use nk_store::{Id, Store};
use std::alloc::{AllocError, Global};

/// For each state of an automaton the ends that it must not have: those at packets of a set.
pub struct WrongEnds {
    /// The states.
    pub states: List<Id>,
    /// The set of packets.
    pub set: Id,
    /// The diagrams of those ends, at the places of their states.
    pub ends: List<Id>,
}

impl Drop for WrongEnds {
    fn drop(self) {
        let Self {
            states: _,
            set: _,
            ends: _,
        } = self;
    }
}

impl Goal for WrongEnds {
    ghost fits = { λ g st. HaveEndsOf st g.set g.states g.ends };

    ghost labels = { λ g. length g.states };

    ghost violations_of = { λ g st set pk. wrong_leaf st g.set g.states set pk };

    fn bad(&mut self, st: &mut Store, ss: &Sets, s: SetId) -> Result<Id, AllocError> {
        let picked = picked(st.alloc(), self.ends.as_slice(), ss.members(s))?;
        union_all(st, picked.as_slice())
    }

    ghost fits_on = { λ g old new fits grown. ends_on old new g.set g.states g.ends fits grown };

    ghost violations_grow = { λ g old new set pk fits grown places. wrong_on old new g.set g.states g.ends set pk fits grown places };

    ghost sided = { λ g st set pk o fits whole among. wrong_sided st g.set g.states g.ends set pk o fits whole among };
}

/// The diagrams at these places.
fn picked(alloc: Global, ends: &[Id], places: &[u64]) -> Result<List<Id>, AllocError>
    requires { All (λ l. l < length ends.now) places.now }
    ensures { IfOk result (λ ds. ds ≡ map (λ l. slice_index ends.now l) places.now) }
{
    let mut ds = List::new(alloc);
    for l in places {
        ds.push(end_at(ends, *l))?;
    }
    Ok(ds)
}

/// The diagram at a place.
fn end_at(ends: &[Id], place: u64) -> Id
    requires { place < length ends.now }
    ensures { result ≡ slice_index ends.now place }
{
    ends[place as usize]
}

/// For each of the states its ends at packets of the set. The only error is that memory ran out.
pub fn wrong_ends(st: &mut Store, states: &[Id], set: Id) -> Result<WrongEnds, AllocError>
    requires states { AreIds st.old states.now }
    requires set { IsSet st.old set }
    ensures grows { Grows st.old st.new }
    ensures states { IfOk result (λ g. g.states ≡ states.now) }
    ensures set { IfOk result (λ g. g.set ≡ set) }
    ensures ends { IfOk result (λ g. HaveEndsOf st.new set states.now g.ends) }
{
    let ends = ends_of(st, states, set)?;
    let states = Vec::from_slice(st.alloc(), states)?;
    Ok(WrongEnds {
        states: List::from_vec(states),
        set,
        ends,
    })
}

/// The diagram of each state's ends in the set.
#[tactic(auto, using(nk_sets::proofs::SetLemmas::set_grows))]
fn ends_of(st: &mut Store, states: &[Id], set: Id) -> Result<List<Id>, AllocError>
    requires states { AreIds st.old states.now }
    requires set { IsSet st.old set }
    ensures grows { Grows st.old st.new }
    ensures ends { IfOk result (HaveEndsOf st.new set states.now) }
{
    let mut seen = Memo::new(st.alloc());
    let mut ends = List::new(st.alloc());
    for state in states {
        let d = end_once(st, &mut seen, *state, set)?;
        ends.push(d)?;
    }
    Ok(ends)
}

/// A state's ends in the set, which are looked up where they were made before.
fn end_once(st: &mut Store, seen: &mut Memo<Id>, state: Id, set: Id) -> Result<Id, AllocError>
    requires state { IsId st.old state }
    requires set { IsId st.old set }
    requires seen { AreEndsOf st.old set seen.old }
    ensures grows { Grows st.old st.new }
    ensures end { IfOk result (IsEndOf st.new set state) }
    ensures seen { OnOk result (AreEndsOf st.new set seen.new) }
{
    if let Some(r) = known(seen, state) {
        return Ok(r);
    }
    let r = end_in(st, state, set)?;
    seen.insert(state, r)?;
    Ok(r)
}

/// A state's ends in the set.
fn end_in(st: &mut Store, state: Id, set: Id) -> Result<Id, AllocError>
    requires state { IsId st.old state }
    requires set { IsId st.old set }
    ensures grows { Grows st.old st.new }
    ensures end { IfOk result (IsEndOf st.new set state) }
{
    let finals = finals_of(st, state)?;
    seq(st, finals, set)
}

/// A state's ends.
fn finals_of(st: &mut Store, state: Id) -> Result<Id, AllocError>
    requires state { IsId st.old state }
    ensures grows { Grows st.old st.new }
    ensures ok { IfOk result
        (λ r. HasLeaves st.new r (λ pk. retargeted (Some 0 ∷ []) (look st.old state pk))) }
{
    retarget(st, state, &[Some(0)])
}
