//! The automaton of a policy over many switches takes memory linear in the policy.
use crate::policies::{complement, either, in_turn, numbered, star};
use nk_auto::policy_automaton;
use nk_field::{Fid, Fields};
use nk_policy::{Pol, Pols};
use nk_store::Store;
use std::alloc::{AllocError, Global};
use std::test::Fail;

/// The places of the two declared fields.
const DST: u8 = 2;

const KEY: u8 = 3;

/// The least address of a host.
const ADDRESSES: u64 = 281_474_000_000_000;

/// Each switch with the address of its one host.
fn home(alloc: Global, switches: u16) -> Result<Pol, AllocError> {
    let mut terms = Vec::new(alloc);
    for n in 1..=switches {
        let n = u64::from(n);
        let address = Pol::Test(Fid::new(DST), ADDRESSES + n * 977);
        terms.push(in_turn(alloc, Pol::Test(Fid::SWITCH, n), address)?)?;
    }
    Ok(Pol::Sum(Pols::new(terms)))
}

/// A link from each switch at one port to the one so many switches further on, at the port after that one.
fn ring(alloc: Global, switches: u16, port: u16, step: u16) -> Result<Pol, AllocError> {
    let mut links = Vec::new(alloc);
    for n in 1..=switches {
        let to = (u32::from(n) + u32::from(step)) % u32::from(switches.max(1)) + 1;
        links.push(Pol::Link(n, port, to as u16, port.saturating_add(1), 1))?;
    }
    Ok(Pol::Sum(Pols::new(links)))
}

/// Out by a port, and then across a link to the switch so many further on.
fn out_by(alloc: Global, switches: u16, port: u16, step: u16) -> Result<Pol, AllocError> {
    let links = ring(alloc, switches, port, step)?;
    in_turn(alloc, Pol::Set(Fid::PORT, u64::from(port)), links)
}

/// One hop from a switch that isn't the one of the packet's address.
fn away(alloc: Global, switches: u16) -> Result<Pol, AllocError> {
    let near = out_by(alloc, switches, 1, 0)?;
    let hop = either(alloc, near, out_by(alloc, switches, 3, 96)?)?;
    let not_home = complement(alloc, home(alloc, switches)?)?;
    in_turn(alloc, not_home, hop)
}

/// From port 9, with a key set, by any number of hops to the switch of the packet's address, and out at port 9:
/// `pt=9;key:=7;(~home;hop)*;home;pt:=9`.
fn go(alloc: Global, switches: u16) -> Result<Pol, AllocError> {
    let mut steps = Vec::new(alloc);
    steps.push(Pol::Test(Fid::PORT, 9))?;
    steps.push(Pol::Set(Fid::new(KEY), 7))?;
    steps.push(star(alloc, away(alloc, switches)?)?)?;
    steps.push(home(alloc, switches)?)?;
    steps.push(Pol::Set(Fid::PORT, 9))?;
    Ok(Pol::Seq(Pols::new(steps)))
}

/// A store over an address and a key.
fn store_of(alloc: Global) -> Result<Store, Fail> {
    let mut fields = Fields::new(alloc)?;
    fields.add("dst", 281_474_976_710_655)?;
    fields.add("key", 281_474_976_710_655)?;
    Ok(Store::new(alloc, &fields)?)
}

/// How many nodes the store has once the automaton is made, and how many states that has.
fn nodes_and_states(st: &mut Store, switches: u16) -> Result<(usize, usize), AllocError> {
    let alloc = st.alloc();
    let Some(p) = numbered(alloc, &go(alloc, switches)?)? else {
        return Ok((0, 0));
    };
    let states = policy_automaton(st, &p, 1)?;
    Ok((st.len(), states.len()))
}

/// How many nodes a store of its own has once the automaton is made, and how many states the automaton has.
fn nodes_and_states_alone(alloc: Global, switches: u16) -> Result<(usize, usize), Fail> {
    let mut st = store_of(alloc)?;
    Ok(nodes_and_states(&mut st, switches)?)
}

/// Over 320 switches each link takes two states and each switch at most 32 nodes.
#[test]
fn nodes_are_linear_in_the_policy(rt: HostRuntime) -> Result<(), Fail> {
    let (nodes, states) = nodes_and_states_alone(rt.alloc(), 320)?;
    assert_eq!(rt; states, 1 + 4 * 320);
    assert!(rt; nodes <= 32 * 320, "{nodes} nodes");
    Ok(())
}
