//! The levels of a ring of two switches, and the numbers of its sets.
ghost use Rattle.std.specs.Prelude.{◌≡◌, ◌≤◌, ◌<◌, [], ◌∷◌, refl, IfOk, IfSome, length};
ghost use Rattle.nk_store.specs.StoreState.{Grows};
ghost use Rattle.nk_apply.proofs.Members.{contains_has};
ghost use Rattle.nk_sets.specs.PacketSets.{IsSet};
ghost use Rattle.nk_determ.specs.Sets.{IsSetOf};
ghost use Rattle.nk_determ.specs.Pairs.{AreStates};
ghost use Rattle.nk_tag.specs.Numbers.{AreEntries};

use crate::automata::states_of;
use crate::policies::{either, in_turn, star};
use nk_algebra::{empty, identity};
use nk_determ::{Levels, SetId, Sets};
use nk_field::{Fid, List};
use nk_goal::Goal;
use nk_policy::Pol;
use nk_reach::levels;
use nk_store::{Id, Store};
use nk_tag::{NumberError, number};
use std::alloc::{AllocError, Global};

/// Each packet.
pub fn each(st: &mut Store) -> Result<Id, AllocError>
    ensures grows { Grows st.old st.new }
    ensures set { IfOk result (IsSet st.new) }
{
    identity(st)
}

/// The start alone.
pub fn start_set(alloc: Global, ss: &mut Sets) -> Result<SetId, AllocError>
    ensures set { IfOk result (λ s. IsSetOf ss.new s (0 ∷ [])) }
{
    let mut labels = List::new(alloc);
    labels.push(0)?;
    ss.intern(labels)
}

/// The goal for which nothing is bad.
#[derive(Drop)]
struct NoViolation {
    /// How many labels there are.
    labels: usize,
}

impl Goal for NoViolation {
    ghost fits = { λ g st. Unit {0} };

    ghost labels = { λ g. g.labels };

    ghost violations_of = { λ g st set pk. [] };

    ghost fits_on = { λ g old new fits grows. tt };

    ghost violations_grow = { λ g old new set pk fits grows places. refl };

    ghost sided = { λ g st set pk o fits whole among. absurd (contains_has [] o among) };

    fn bad(&mut self, st: &mut Store, ss: &Sets, s: SetId) -> Result<Id, AllocError> {
        empty(st)
    }
}

/// The levels of some states from the start at some packets, all of them: nothing is bad.
fn levels_of(st: &mut Store, ss: &mut Sets, states: &[Id], start: Id) -> Result<Levels, AllocError>
    requires states { AreStates st.old states.now }
    requires some { 0 < length states.now }
    requires packets { IsSet st.old start }
    ensures entries { IfOk result (λ l. AreEntries ss.new l.levels) }
{
    let mut g = NoViolation {
        labels: states.len(),
    };
    let s = start_set(st.alloc(), ss)?;
    levels(st, ss, states, s, start, &mut g)
}

/// The levels of a policy's automaton from its start at some packets, all of them; none where the policy has no automaton.
#[tactic(auto, using(nk_sets::proofs::SetLemmas::set_grows))]
fn levels_of_policy(
    st: &mut Store,
    ss: &mut Sets,
    raw: &Pol,
    start: Id,
) -> Result<Option<Levels>, AllocError>
    requires packets { IsSet st.old start }
    ensures entries { IfOk result (λ o. IfSome o (λ l. AreEntries ss.new l.levels)) }
{
    let states = states_of(st, raw)?;
    if states.is_empty() {
        return Ok(None);
    }
    let lv = levels_of(st, ss, states.as_slice(), start)?;
    Ok(Some(lv))
}

/// `(pt:=2;(1:2=>2:1 + 2:2=>1:3))*;pt:=3`.
fn around(alloc: Global) -> Result<Pol, AllocError> {
    let links = either(alloc, Pol::Link(1, 2, 2, 1, 0), Pol::Link(2, 2, 1, 3, 0))?;
    let hop = in_turn(alloc, Pol::Set(Fid::PORT, 2), links)?;
    let hops = star(alloc, hop)?;
    in_turn(alloc, hops, Pol::Set(Fid::PORT, 3))
}

/// Whether the set has this label alone.
fn has_label(ss: &Sets, s: SetId, label: u64) -> bool {
    s.place() < ss.len() && ss.members(s) == [label].as_slice()
}

/// Whether the sets at odd levels are two, of the first label of each link alone: packets at switch 1 record at the first link's
/// source, those at switch 2 at the second's, both in one level, so the set of the first label is the first one.
fn are_numbered(ss: &Sets, lv: &Levels) -> Result<bool, NumberError>
    requires entries { AreEntries ss.now lv.now.levels }
{
    if lv.broken() {
        return Ok(false);
    }
    let ids = number(ss, lv, 7)?.sets;
    Ok(ids.len() == 2 && has_label(ss, *ids.at(0), 1) && has_label(ss, *ids.at(1), 3))
}

/// Whether two sets are more than one.
fn are_too_many(ss: &Sets, lv: &Levels) -> bool
    requires entries { AreEntries ss.now lv.now.levels }
{
    !lv.broken() && number(ss, lv, 1).err() == Some(NumberError::TooManyTags { found: 2 })
}

/// The levels of the ring from each packet.
fn levels_of_ring(st: &mut Store, ss: &mut Sets) -> Result<Option<Levels>, AllocError>
    ensures entries { IfOk result (λ o. IfSome o (λ l. AreEntries ss.new l.levels)) }
{
    let ring = around(st.alloc())?;
    let start = each(st)?;
    levels_of_policy(st, ss, &ring, start)
}

/// Whether the sets of the ring are numbered, up to two.
pub fn are_two(st: &mut Store, ss: &mut Sets) -> Result<bool, AllocError> {
    match levels_of_ring(st, ss)? {
        Some(lv) => Ok(are_numbered(ss, &lv) == Ok(true) && are_too_many(ss, &lv)),
        None => Ok(false),
    }
}
