//! A topology of two switches and two links.
use nk_topo::{LinkEnd, Topo, TopoError};
use std::alloc::Global;
use std::test::Fail;

fn two_switches(alloc: Global) -> Result<Topo, Fail> {
    let mut topo = Topo::new(alloc)?;
    topo.add_switch(7, &[3, 1])?;
    topo.add_switch(2, &[9, 4, 5])?;
    Ok(topo)
}

fn switches_are_refused(topo: &mut Topo) -> bool {
    topo.add_switch(7, &[1]) == Err(TopoError::SwitchTwice)
        && topo.add_switch(8, &[6, 2, 6]) == Err(TopoError::PortTwice)
}

fn add_links(topo: &mut Topo) -> Result<(), TopoError> {
    topo.add_link(7, 1, 2, 9)?;
    topo.add_link(2, 5, 7, 1)
}

/// Links that are refused after those two, and why.
const REFUSED: [((u16, u16, u16, u16), TopoError); 4] = [
    ((7, 2, 2, 4), TopoError::NoSuchPort(LinkEnd::Source)),
    ((7, 1, 9, 4), TopoError::NoSuchPort(LinkEnd::Target)),
    ((7, 1, 2, 9), TopoError::SourceTwice),
    ((2, 4, 2, 9), TopoError::TargetTwice),
];

fn links_are_refused(topo: &mut Topo) -> bool {
    for ((a, m, b, n), error) in REFUSED {
        if topo.add_link(a, m, b, n) != Err(error) {
            return false;
        }
    }
    true
}

/// A copy of the topology of both switches and links, if all others are refused.
fn built(alloc: Global) -> Result<Option<Topo>, Fail> {
    let mut topo = two_switches(alloc)?;
    let are_refused = switches_are_refused(&mut topo);
    add_links(&mut topo)?;
    if are_refused && links_are_refused(&mut topo) {
        Ok(Some(topo.copy()?))
    } else {
        Ok(None)
    }
}

fn is_in_order(topo: &Topo) -> bool {
    topo.switches() == [2, 7].as_slice()
        && topo.ports(2) == [4, 5, 9].as_slice()
        && topo.links() == [(2, 5, 7, 1), (7, 1, 2, 9)].as_slice()
        && topo.link_from(2, 5) == Some((7, 1))
}

fn knows_ports(topo: &Topo) -> bool {
    (topo.is_switch(7), topo.is_switch(8)) == (true, false)
        && (topo.is_port(7, 1), topo.is_port(7, 2)) == (true, false)
        && (topo.is_edge(2, 9), topo.is_edge(2, 5)) == (true, false)
}

fn is_built(alloc: Global) -> Result<bool, Fail> {
    match built(alloc)? {
        Some(topo) => Ok(is_in_order(&topo) && knows_ports(&topo)),
        None => Ok(false),
    }
}

#[test]
fn switches_and_links_are_added_in_order(rt: HostRuntime) -> Result<(), Fail> {
    assert!(rt; is_built(rt.alloc())?);
    Ok(())
}
