//! The homes and the links of a generated network.
ghost use Rattle.std.specs.Prelude.{◌≡◌, ◌≤◌, ◌<◌, ◌+◌, ◌*◌, ◌++◌, ◌==◌, ◌||◌, not, true, false, length, slice_index_or, slice_set, IfOk, OnOk};
ghost use Rattle.nk_gen.specs.Network as specs;
ghost use Rattle.nk_gen.specs.Flags.{AreEnds};

use std::alloc::{AllocError, Global};

/// A switch with the destination that is at home there.
#[derive(Clone, Copy)]
pub(crate) struct Home {
    pub(crate) switch: u64,
    pub(crate) destination: u64,
}

/// A link from a port of a switch to a port of a switch.
#[derive(Clone, Copy)]
pub(crate) struct Link {
    pub(crate) from_switch: u64,
    pub(crate) from_port: u64,
    pub(crate) to_switch: u64,
    pub(crate) to_port: u64,
}

/// The homes of switches 1, 2, .., one for each draw.
pub(crate) fn homes(alloc: Global, draws: &[u64]) -> Result<Vec<Home>, AllocError>
    requires { length draws.now ≤ 1000 }
    ensures { IfOk result (λ homes. homes.items ≡ specs.homes_by draws.now) }
{
    let mut homes = Vec::new(alloc);
    for (i, draw) in draws.iter().enumerate() {
        homes.push(home_of(i as u64 + 1, *draw))?;
    }
    Ok(homes)
}

/// The home of a switch with its draw.
fn home_of(switch: u64, draw: u64) -> Home
    requires { switch ≤ 1000 }
    ensures { result ≡ specs.home_of (switch, draw) }
{
    Home {
        switch,
        destination: 281_474_000_000_000 + 1000 * switch + draw % 1000,
    }
}

/// The ring of so many switches.
pub(crate) fn ring(alloc: Global, size: u64) -> Result<Vec<Link>, AllocError>
    requires { size ≤ 1000 }
    ensures { IfOk result (λ links. links.items ≡ specs.ring size) }
{
    let mut links = Vec::new(alloc);
    for below in 0..size {
        links.push(ring_link(size, below + 1))?;
    }
    Ok(links)
}

/// The link of the ring at a switch.
fn ring_link(size: u64, switch: u64) -> Link
    requires { switch ≤ 1000 }
    ensures { result ≡ specs.ring_link size switch }
{
    Link {
        from_switch: switch,
        from_port: 1,
        to_switch: if switch == size { 1 } else { switch + 1 },
        to_port: 2,
    }
}

/// The chords of switches 1, 2, .., one draw for each.
pub(crate) fn chords(alloc: Global, size: u64, draws: &[u64]) -> Result<Vec<Link>, AllocError>
    requires size { (1 ≤ size) × (size ≤ 1000) }
    requires draws { length draws.now ≤ 1000 }
    ensures { IfOk result (λ chords. chords.items ≡ specs.chords_by size draws.now) }
{
    let mut ends = vec![in alloc; false; size as usize + 1]?;
    let mut chords = Vec::new(alloc);
    for (i, draw) in draws.iter().enumerate() {
        add_chord(&mut ends, &mut chords, i as u64 + 1, 1 + *draw % size)?;
    }
    Ok(chords)
}

/// Adds the chord from a switch to another, if there is one. The flags say at which switches chords end.
fn add_chord(
    ends: &mut Vec<bool>,
    chords: &mut Vec<Link>,
    from: u64,
    to: u64,
) -> Result<(), AllocError>
    requires to { to < length ends.old.items }
    requires flags { AreEnds ends.old.items chords.old.items }
    ensures chords { OnOk result
        (chords.new.items ≡ chords.old.items ++ specs.chord_from chords.old.items from to) }
    ensures flags { OnOk result (AreEnds ends.new.items chords.new.items) }
    ensures room { OnOk result (length ends.new.items ≡ length ends.old.items) }
{
    if !has_chord(ends.as_slice(), from, to) {
        return Ok(());
    }
    chords.push(Link {
        from_switch: from,
        from_port: 3,
        to_switch: to,
        to_port: 4,
    })?;
    set_end(ends, to);
    Ok(())
}

/// Whether there is a chord from a switch to another: not to itself, and not where a chord ends already.
fn has_chord(ends: &[bool], from: u64, to: u64) -> bool
    requires { to < length ends.now }
    ensures { result ≡ not ((from == to) || slice_index_or ends.now to false) }
{
    from != to && !ends[to as usize]
}

/// Sets the flag of a switch.
fn set_end(ends: &mut Vec<bool>, switch: u64)
    requires { switch < length ends.old.items }
    ensures { ends.new.items ≡ slice_set ends.old.items switch true }
{
    ends[switch as usize] = true;
}

/// The tree of so many switches.
pub(crate) fn tree(alloc: Global, size: u64) -> Result<Vec<Link>, AllocError>
    requires { size ≤ 1000 }
    ensures { IfOk result (λ links. links.items ≡ specs.tree size) }
{
    let mut links = Vec::new(alloc);
    for below in 0..size {
        add_branches(&mut links, size, below + 1)?;
    }
    Ok(links)
}

/// Adds the links of the tree from a switch.
fn add_branches(links: &mut Vec<Link>, size: u64, switch: u64) -> Result<(), AllocError>
    requires { switch ≤ 1000 }
    ensures { OnOk result (links.new.items ≡ links.old.items ++ specs.branches size switch) }
{
    add_branch(links, size, (switch, 5), 2 * switch)?;
    add_branch(links, size, (switch, 6), 2 * switch + 1)
}

/// Adds the link of the tree from a switch and its port to another switch, if there is such a switch.
fn add_branch(
    links: &mut Vec<Link>,
    size: u64,
    source: (u64, u64),
    target: u64,
) -> Result<(), AllocError>
    ensures { OnOk result (links.new.items
        ≡ links.old.items ++ specs.branch size source.0 source.1 target) }
{
    if size < target {
        return Ok(());
    }
    links.push(Link {
        from_switch: source.0,
        from_port: source.1,
        to_switch: target,
        to_port: 7,
    })?;
    Ok(())
}
