//! Which part of which row fails first.
ghost use Rattle.std.specs.Prelude.{◌≡◌, ◌<◌, ◌∷◌, [], ℕ, true, false, IfOk, OnOk, length, List as Items};
ghost use Rattle.nk_store.specs.StoreState.{StoreState, Grows};
ghost use Rattle.nk_determ.specs.Sets.{SetsGrow};
ghost use Rattle.nk_determ.specs.Pairs.{IsPair};
ghost use Rattle.nk_reach.specs.Sides.{alone, ends_of};
ghost use Rattle.nk_cert.specs.Values.{row_values};
ghost use Rattle.nk_check.specs.Judged.{CanJudge, AreLabels, AreEntriesOf, IsSetJudged, IsRowJudged, IsStartJudged, IsJudged, row_at, entry_at};

use crate::entries::are_labels;
use crate::packets::has_each;
use nk_cert::{CertPart, Verdict};
use nk_determ::{SetId, Sets};
use nk_field::List;
use nk_goal::{Entries, any_violation};
use nk_policy::Pol;
use nk_reach::{OneSide, next_level};
use nk_store::{Id, Store};
use std::alloc::{AllocError, Global};

/// What rows are judged by: the automaton of both policies, and the certificate's rows as sets of labels and packets.
pub(crate) struct Judge {
    /// The automaton of both policies, of which the first state is that of both starts.
    pub(crate) states: List<Id>,
    /// The start row's entry.
    pub(crate) start: (SetId, Id),
    /// The later rows' entries, in their order.
    pub(crate) entries: List<(SetId, Id)>,
    /// The packets of all later rows, by their sets.
    pub(crate) told: Entries,
}

impl Drop for Judge {
    fn drop(self) {
        let Self {
            states: _,
            start: _,
            entries: _,
            told: _,
        } = self;
    }
}

/// What is found of all rows, the start row first.
pub(crate) fn judge_rows(
    st: &mut Store,
    ss: &mut Sets,
    judge: &Judge,
    goal: &mut OneSide,
    later: &[(List<u64>, Pol)],
) -> Result<Verdict, AllocError>
    requires can { CanJudge st.old ss.old judge.now.states judge.now.told goal.old.ends
        goal.old.seen.entries }
    requires start { IsPair st.old ss.old (length judge.now.states) judge.now.start }
    requires entries { AreEntriesOf st.old ss.old (length judge.now.states)
        (row_values later.now) judge.now.entries }
    ensures grows { Grows st.old st.new }
    ensures ok { IfOk result
        (λ v. IsJudged st.old ss.old judge.now.states
        (λ set pk. alone (ends_of st.old goal.old.ends set pk)) judge.now.told
        judge.now.start (row_values later.now) judge.now.entries v) }
{
    let first = judge_start(st, ss, judge, goal)?;
    if let Some(part) = first {
        return Ok(Verdict::Invalid { row: 1, part });
    }
    for i in 0..later.len() {
        let found = judge_row(st, ss, judge, goal, later, i)?;
        if let Some(part) = found {
            return Ok(Verdict::Invalid {
                row: i as u64 + 2,
                part,
            });
        }
    }
    Ok(Verdict::Valid)
}

/// The first part that the start row fails, if one.
fn judge_start(
    st: &mut Store,
    ss: &mut Sets,
    judge: &Judge,
    goal: &mut OneSide,
) -> Result<Option<CertPart>, AllocError>
    requires can { CanJudge st.old ss.old judge.now.states judge.now.told goal.old.ends
        goal.old.seen.entries }
    requires start { IsPair st.old ss.old (length judge.now.states) judge.now.start }
    ensures grows { Grows st.old st.new }
    ensures sets { SetsGrow ss.old ss.new }
    ensures can { OnOk result
        (CanJudge st.new ss.new judge.now.states judge.now.told goal.new.ends
        goal.new.seen.entries) }
    ensures same { OnOk result
        ((st : StoreState) (set pk : Items ℕ)
        → alone (ends_of st goal.new.ends set pk) ≡ alone (ends_of st goal.old.ends set pk)) }
    ensures ok { IfOk result
        (λ o. IsStartJudged st.old ss.old judge.now.states
        (λ set pk. alone (ends_of st.old goal.old.ends set pk)) judge.now.told
        judge.now.start o) }
{
    if !has_each(st, judge.start.1)? {
        return Ok(Some(CertPart::Start));
    }
    judge_set(st, ss, judge, goal, judge.start)
}

/// The first part that the later row at a place fails, if one.
fn judge_row(
    st: &mut Store,
    ss: &mut Sets,
    judge: &Judge,
    goal: &mut OneSide,
    later: &[(List<u64>, Pol)],
    i: usize,
) -> Result<Option<CertPart>, AllocError>
    requires can { CanJudge st.old ss.old judge.now.states judge.now.told goal.old.ends
        goal.old.seen.entries }
    requires entries { AreEntriesOf st.old ss.old (length judge.now.states)
        (row_values later.now) judge.now.entries }
    requires place { i < length later.now }
    ensures grows { Grows st.old st.new }
    ensures sets { SetsGrow ss.old ss.new }
    ensures can { OnOk result
        (CanJudge st.new ss.new judge.now.states judge.now.told goal.new.ends
        goal.new.seen.entries) }
    ensures same { OnOk result
        ((st : StoreState) (set pk : Items ℕ)
        → alone (ends_of st goal.new.ends set pk) ≡ alone (ends_of st goal.old.ends set pk)) }
    ensures ok { IfOk result
        (λ o. IsRowJudged st.old ss.old judge.now.states
        (λ set pk. alone (ends_of st.old goal.old.ends set pk)) judge.now.told
        (row_at (row_values later.now) i).positions (entry_at judge.now.entries i) o) }
{
    if !has_labels(later, i, judge.states.len()) {
        return Ok(Some(CertPart::Position));
    }
    let entry = entry_of(judge, i);
    judge_set(st, ss, judge, goal, entry)
}

/// Whether each position of the row at a place is a label above 0; there are `count` labels.
fn has_labels(later: &[(List<u64>, Pol)], i: usize, count: usize) -> bool
    requires { i < length later.now }
    ensures yes { result ≡ true → AreLabels count (row_at (row_values later.now) i).positions }
    ensures no { result ≡ false → AreLabels count (row_at (row_values later.now) i).positions → ⊥ }
{
    are_labels(later[i].0.as_slice(), count)
}

/// The entry of the later row at a place.
fn entry_of(judge: &Judge, i: usize) -> (SetId, Id)
    requires { i < length judge.now.entries }
    ensures { result ≡ entry_at judge.now.entries i }
{
    *judge.entries.at(i)
}

/// Whether a set of labels at some packets has an end of one side alone, or else a step to where no row is.
fn judge_set(
    st: &mut Store,
    ss: &mut Sets,
    judge: &Judge,
    goal: &mut OneSide,
    entry: (SetId, Id),
) -> Result<Option<CertPart>, AllocError>
    requires can { CanJudge st.old ss.old judge.now.states judge.now.told goal.old.ends
        goal.old.seen.entries }
    requires entry { IsPair st.old ss.old (length judge.now.states) entry }
    ensures grows { Grows st.old st.new }
    ensures sets { SetsGrow ss.old ss.new }
    ensures can { OnOk result
        (CanJudge st.new ss.new judge.now.states judge.now.told goal.new.ends
        goal.new.seen.entries) }
    ensures same { OnOk result
        ((st : StoreState) (set pk : Items ℕ)
        → alone (ends_of st goal.new.ends set pk) ≡ alone (ends_of st goal.old.ends set pk)) }
    ensures ok { IfOk result
        (λ o. IsSetJudged st.old ss.old judge.now.states
        (λ set pk. alone (ends_of st.old goal.old.ends set pk)) judge.now.told entry o) }
{
    let level = level_of(st.alloc(), entry)?;
    if any_violation(st, ss, &level, goal)? {
        return Ok(Some(CertPart::Finals));
    }
    let elsewhere = next_level(st, ss, judge.states.as_slice(), &judge.told, &level)?;
    if elsewhere.len() > 0 {
        return Ok(Some(CertPart::Hop));
    }
    Ok(None)
}

/// One entry as a level.
fn level_of(alloc: Global, entry: (SetId, Id)) -> Result<List<(SetId, Id)>, AllocError>
    ensures { IfOk result (λ l. l ≡ entry ∷ []) }
{
    let mut level = List::new(alloc);
    level.push(entry)?;
    Ok(level)
}
