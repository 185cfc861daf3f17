//! Examples: policies, what is read off them, their histories, and their texts.
use nk_field::{Fid, Fields, History, Packet};
use nk_policy::{
    Pol, Pols, depth, dups, expand_links, histories, is_predicate, marked, pol_text, size,
};
use std::alloc::{AllocError, Global};
use std::test::Fail;

fn two(alloc: Global, p: Pol, q: Pol) -> Result<Pols, AllocError> {
    Ok(Pols::new(vec![in alloc; p, q]?))
}

fn star(alloc: Global, p: Pol) -> Result<Pol, AllocError> {
    Ok(Pol::Star(Box::new(alloc, p)?))
}

fn not(alloc: Global, p: Pol) -> Result<Pol, AllocError> {
    Ok(Pol::Not(Box::new(alloc, p)?))
}

fn switch_is(n: u64) -> Pol {
    Pol::Test(Fid::SWITCH, n)
}

fn port_set(n: u64) -> Pol {
    Pol::Set(Fid::PORT, n)
}

/// A complement of a complement and so on, of a depth.
fn nested(alloc: Global, depth: u64) -> Result<Pol, AllocError> {
    let mut p = switch_is(1);
    for _ in 1..depth {
        p = Pol::Not(Box::new(alloc, p)?);
    }
    Ok(p)
}

/// A sum of a number of dups.
fn wide(alloc: Global, parts: u64) -> Result<Pol, AllocError> {
    let mut all = Vec::new(alloc);
    for _ in 0..parts {
        all.push(Pol::Dup(1))?;
    }
    Ok(Pol::Sum(Pols::new(all)))
}

/// The depth of a policy, its size and the number of its dups.
fn measures(p: &Pol) -> (u64, u64, u64) {
    (depth(p), size(p), dups(p))
}

fn deep_is_measured(alloc: Global) -> Result<bool, AllocError> {
    let deep = nested(alloc, 256)?;
    Ok(measures(&deep) == (256, 256, 0) && is_predicate(&deep))
}

fn wide_is_measured(alloc: Global) -> Result<bool, AllocError> {
    let wide = wide(alloc, 100_000)?;
    Ok(measures(&wide) == (2, 100_001, 100_000) && !is_predicate(&wide))
}

fn wide_is_copied(alloc: Global) -> Result<bool, AllocError> {
    let wide = wide(alloc, 100_000)?;
    let copy = wide.copy(alloc)?;
    Ok(size(&copy) == 100_001)
}

fn link_is_written_out(alloc: Global) -> Result<bool, AllocError> {
    let link = Pol::Link(1, 2, 2, 1, 7);
    let written_out = expand_links(alloc, &link)?;
    Ok(measures(&link) == (1, 1, 2) && measures(&written_out) == (2, 7, 2))
}

/// How many dups a policy has once they are numbered from 3 on.
fn dups_numbered(alloc: Global, p: &Pol) -> Result<u64, AllocError> {
    if dups(p) >= 1_000_000 {
        return Ok(0);
    }
    let numbered = marked(alloc, p, 3)?;
    Ok(dups(&numbered))
}

fn wide_is_numbered(alloc: Global) -> Result<bool, AllocError> {
    let wide = wide(alloc, 100_000)?;
    Ok(dups_numbered(alloc, &wide)? == 100_000)
}

#[test]
fn deep_and_wide_policies_are_measured(rt: HostRuntime) -> Result<(), Fail> {
    let alloc = rt.alloc();
    assert!(rt; deep_is_measured(alloc)?);
    assert!(rt; wide_is_measured(alloc)?);
    assert!(rt; wide_is_copied(alloc)?);
    assert!(rt; link_is_written_out(alloc)?);
    assert!(rt; wide_is_numbered(alloc)?);
    Ok(())
}

/// Whether a packet is at a switch and a port.
fn is_at(pk: &Packet, at: (u64, u64)) -> bool {
    (pk.get(Fid::SWITCH), pk.get(Fid::PORT)) == at
}

/// Whether a history records both ends of the link, and ends at the second one.
fn goes_over_the_link(h: &History) -> bool {
    match h.records.as_slice() {
        [first, second] => is_at(first, (0, 0)) && is_at(second, (2, 1)) && is_at(&h.last, (2, 1)),
        _ => false,
    }
}

fn link_gives_one_history(alloc: Global) -> Result<bool, AllocError> {
    let all = histories(alloc, &Pol::Link(0, 0, 2, 1, 7), &Packet::zero())?;
    Ok(all.len() == 1 && all.iter().all(goes_over_the_link))
}

#[test]
fn a_link_gives_one_history_from_its_source(rt: HostRuntime) -> Result<(), Fail> {
    assert!(rt; link_gives_one_history(rt.alloc())?);
    Ok(())
}

/// Whether a policy is printed so.
fn is_printed(alloc: Global, p: Result<Pol, AllocError>, text: &[u8]) -> Result<bool, AllocError> {
    let p = p?;
    let fields = Fields::new(alloc)?;
    Ok(pol_text(alloc, &fields, &p)?.as_slice() == text)
}

fn no_parts(alloc: Global) -> Pols {
    Pols::new(Vec::new(alloc))
}

/// A policy of sums and sequences in one another.
fn sum_of_sequences(alloc: Global) -> Result<Pol, AllocError> {
    let set = Pol::Seq(two(alloc, port_set(2), Pol::Dup(1))?);
    let first = Pol::Seq(two(alloc, switch_is(1), set)?);
    let second = Pol::Sum(two(alloc, switch_is(3), Pol::Dup(2))?);
    Ok(Pol::Sum(two(alloc, first, second)?))
}

fn star_of_star(alloc: Global) -> Result<Pol, AllocError> {
    star(alloc, star(alloc, Pol::Dup(1))?)
}

fn not_of_star(alloc: Global) -> Result<Pol, AllocError> {
    not(alloc, star(alloc, Pol::Dup(1))?)
}

fn not_of_sum(alloc: Global) -> Result<Pol, AllocError> {
    not(alloc, Pol::Sum(two(alloc, switch_is(1), switch_is(2))?))
}

fn star_of_sequence(alloc: Global) -> Result<Pol, AllocError> {
    star(alloc, Pol::Seq(two(alloc, switch_is(1), port_set(2))?))
}

#[test]
fn policies_are_printed(rt: HostRuntime) -> Result<(), Fail> {
    let alloc = rt.alloc();
    assert!(rt; is_printed(alloc, Ok(Pol::Seq(no_parts(alloc))), b"id")?);
    assert!(rt; is_printed(alloc, Ok(Pol::Sum(no_parts(alloc))), b"drop")?);
    assert!(rt;
        is_printed(
            alloc,
            sum_of_sequences(alloc),
            b"sw=1;(pt:=2;dup) + (sw=3 + dup)"
        )?
    );
    assert!(rt; is_printed(alloc, star_of_star(alloc), b"(dup*)*")?);
    assert!(rt; is_printed(alloc, not_of_star(alloc), b"~dup*")?);
    assert!(rt; is_printed(alloc, not_of_sum(alloc), b"~(sw=1 + sw=2)")?);
    assert!(rt; is_printed(alloc, star_of_sequence(alloc), b"(sw=1;pt:=2)*")?);
    assert!(rt; is_printed(alloc, star(alloc, Pol::Seq(no_parts(alloc))), b"id*")?);
    assert!(rt; is_printed(alloc, Ok(Pol::Link(1, 20, 65535, 4, 9)), b"1:20=>65535:4")?);
    Ok(())
}
