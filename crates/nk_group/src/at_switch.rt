//! States cut to one switch.
ghost use Rattle.std.specs.Prelude.{◌≡◌, ◌<◌, All, IfOk, length, slice_index, slice_set};
ghost use Rattle.nk_store.specs.StoreState.{Grows, look};
ghost use Rattle.nk_apply.specs.Unions.{AreIds};
ghost use Rattle.nk_determ.specs.Sets.{SetsGrow};
ghost use Rattle.nk_determ.specs.States.{HaveEach};
ghost use Rattle.nk_group.specs.States.{IsStateAtSwitch};

use nk_apply::restrict;
use nk_determ::{Sets, state_at, state_of};
use nk_field::{Fid, List};
use nk_store::{Id, Store};
use std::alloc::AllocError;

/// What the states at these places do together at the packets of a switch, as one diagram. The only
/// error is that memory ran out.
pub fn switch_state(
    st: &mut Store,
    ss: &mut Sets,
    states: &[Id],
    members: &[u64],
    sw: u16,
) -> Result<Id, AllocError>
    requires states { AreIds st.old states.now }
    requires places { All (λ l. l < length states.now) members.now }
    ensures grows { Grows st.old st.new }
    ensures sets { SetsGrow ss.old ss.new }
    ensures state { IfOk result (λ d. IsStateAtSwitch st.new ss.new states.now members.now sw d) }
{
    let cut = cut_states(st, states, members, sw)?;
    let d = state_of(st, ss, cut.as_slice())?;
    Ok(d)
}

/// The states at these places, each at one value of the switch.
fn cut_states(
    st: &mut Store,
    states: &[Id],
    members: &[u64],
    sw: u16,
) -> Result<List<Id>, AllocError>
    requires states { AreIds st.old states.now }
    requires places { All (λ l. l < length states.now) members.now }
    ensures grows { Grows st.old st.new }
    ensures len { IfOk result (λ ds. length ds ≡ length members.now) }
    ensures ok { IfOk result (λ ds. HaveEach st.new ds
        (λ k pk. look st.old (slice_index states.now (slice_index members.now k))
        (slice_set pk 0 sw)) (length ds)) }
{
    let mut ds = List::new(st.alloc());
    for l in members {
        let d = restrict(st, state_at(states, *l), Fid::SWITCH, sw as u64)?;
        ds.push(d)?;
    }
    Ok(ds)
}
