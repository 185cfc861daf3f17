//! The tables of a policy, by its automaton.
ghost use Rattle.std.specs.Prelude.{◌≡◌, ◌≤◌, ◌<◌, ◌+◌, ◌^◌, ◌∷◌, [], ℕ, false, Some, slice_index, IfOk, IfErr, length};
ghost use Rattle.nk_field.specs.Packet.{FieldTable};
ghost use Rattle.nk_topo.specs.Topology.{Topology};
ghost use Rattle.nk_policy.specs.Policy.{Policy};
ghost use Rattle.nk_policy.specs.Tree.{tree_of};
ghost use Rattle.nk_names.specs.WellFormed.{IsWellFormed};
ghost use Rattle.nk_store.specs.StoreState.{Grows};
ghost use Rattle.nk_determ.specs.Sets.{SetsGrow};
ghost use Rattle.nk_determ.specs.Pairs.{AreStates};
ghost use Rattle.nk_tag.specs.Numbers.{AreNumbers};
ghost use Rattle.nk_compile.specs.Levelled.{IsLevelled, IsOffFault, IsTagFault, compile_fault};
ghost use Rattle.nk_compile.specs.declared.refusal.CompileError.TheVariants as compile;
ghost use Rattle.nk_compile.specs.declared.refusal.Refusal.TheVariants as refusal;
ghost use Rattle.nk_compile.specs.Preparing.{IsPrepared, IsEarlyError};

use crate::edges::{off_edges, starts};
use crate::prepared::Prepared;
use crate::refusal::{CompileError, Refusal};
use crate::wrong_ends::wrong_ends;
use nk_auto::policy_automaton;
use nk_determ::{Levels, SetId, Sets};
use nk_field::{Fid, Fields, List};
use nk_policy::Pol;
use nk_reach::levels;
use nk_static::static_fault;
use nk_store::{Id, Store};
use nk_tag::{NumberError, number_from};
use nk_topo::Topo;
use nk_witness::{Found, least_history};
use std::alloc::{AllocError, Global};

/// The levels of an automaton's states from the located untagged packets. Where an end at no edge port is met, the least history
/// with such an end is the refusal.
fn levels_from(
    st: &mut Store,
    ss: &mut Sets,
    topo: &Topo,
    tag: Fid,
    states: &[Id],
) -> Result<Levels, CompileError>
    requires switch { 65535 ≤ slice_index st.old.maxes 0 }
    requires port { 65535 ≤ slice_index st.old.maxes 1 }
    requires states { AreStates st.old states.now }
    requires start { 0 < length states.now }
    ensures grows { Grows st.old st.new }
    ensures sets { SetsGrow ss.old ss.new }
    ensures ok { IfOk result
        (λ l. IsLevelled topo.now tag st.old states.now st.new ss.new l.levels l.broken) }
    ensures whole { IfOk result (λ l. l.broken ≡ false) }
    ensures err { IfErr result (IsOffFault topo.now tag st.old states.now) }
{
    let off = off_edges(st, topo)?;
    let from = starts(st, topo, tag)?;
    let mut goal = wrong_ends(st, states, off)?;
    let s = ss.intern(start_alone(st.alloc())?)?;
    st.laws();
    let lv = levels(st, ss, states, s, from, &mut goal)?;
    if lv.broken() {
        st.laws();
        let found = least_history(st, ss, states, &lv, &mut goal)?;
        return Err(off_edge(found));
    }
    Ok(lv)
}

/// The refusal for a history that ends at no edge port.
fn off_edge(found: Found) -> CompileError
    ensures { result ≡ compile.Refused (refusal.OffEdge found.start found.history) }
{
    let start = found.start;
    let history = found.history;
    CompileError::Refused(Refusal::OffEdge { start, history })
}

/// The set of the start alone.
fn start_alone(alloc: Global) -> Result<List<u64>, AllocError>
    ensures { IfOk result (λ ls. ls ≡ 0 ∷ []) }
{
    let mut ls = List::new(alloc);
    ls.push(0)?;
    Ok(ls)
}

/// The numbers of a prepared policy's sets at odd levels in order, after so many tags; with them there are at most `max`.
pub fn numbers(b: &Prepared, first: u64, max: u64) -> Result<List<SetId>, CompileError>
    requires prepared { (fields : FieldTable) × (topo : Topology) × (tag : ℕ) × (p : Policy)
        × IsPrepared fields topo tag p b.now }
    requires first { first ≤ max }
    requires room { max + 1 < 2 ^ 64 }
    ensures ok { IfOk result (λ r. AreNumbers b.now.sets b.now.levels.levels r) }
    ensures few { IfOk result (λ r. first + length r ≤ max) }
    ensures err { IfErr result (IsTagFault b.now.levels.levels first max) }
{
    match number_from(&b.sets, &b.levels, first, max) {
        Ok(tags) => Ok(tags.sets),
        Err(e) => Err(fault(e)),
    }
}

/// The fault of numbers as one of compilation.
fn fault(e: NumberError) -> CompileError
    ensures { result ≡ compile_fault e }
{
    match e {
        NumberError::NoMemory => CompileError::NoMemory,
        NumberError::TooManyTags { found } => CompileError::Refused(Refusal::TooManyTags { found }),
    }
}

/// The automaton of a policy and the levels of its states. What its text shows against it is the refusal, or else the least
/// history with an end at no edge port.
pub fn prepare(
    alloc: Global,
    fields: &Fields,
    topo: &Topo,
    tag: Fid,
    p: &Pol,
) -> Result<Prepared, CompileError>
    requires tag { fields.now.tag ≡ Some tag }
    requires held { IsWellFormed fields.now (tree_of p.now) }
    requires room { slice_index fields.now.maxima tag + 1 < 2 ^ 64 }
    ensures ok { IfOk result (IsPrepared fields.now topo.now tag (tree_of p.now)) }
    ensures err { IfErr result (IsEarlyError fields.now topo.now (tree_of p.now)) }
{
    if let Some(static_kind) = static_fault(p, topo, tag) {
        return Err(CompileError::Refused(Refusal::Static(static_kind)));
    }
    let _few = fields.declared();
    let _switches = topo.switches();
    let mut store = Store::new(alloc, fields)?;
    let states = policy_automaton(&mut store, p, 1)?;
    let mut sets = Sets::new(alloc);
    let levels = levels_from(&mut store, &mut sets, topo, tag, states.as_slice())?;
    sets.differ();
    Ok(Prepared {
        store,
        states,
        sets,
        levels,
    })
}
