//! The lines of a generated program, each put after a text.
ghost use Rattle.std.specs.Prelude.{◌≡◌, ◌≤◌, ◌++◌, codes, decimal, OnOk};
ghost use Rattle.std.specs.List.{flat_map, join_by};
ghost use Rattle.nk_gen.specs.Network.{switches};
ghost use Rattle.nk_gen.specs.Text as specs;

use crate::network::{Home, Link};
use itoa::Buffer;
use std::alloc::AllocError;

/// The lines of the fields and of the tag.
pub(crate) fn push_fields(out: &mut Vec<u8>) -> Result<(), AllocError>
    ensures { OnOk result (out.new.items ≡ out.old.items ++ specs.field_lines) }
{
    out.extend_from_slice(
        b"field dst 281474976710655\nfield key 281474976710655\nfield vlan 65535\ntag vlan\n",
    )?;
    Ok(())
}

/// The lines of so many switches.
pub(crate) fn push_switches(out: &mut Vec<u8>, size: u64) -> Result<(), AllocError>
    requires { size ≤ 1000 }
    ensures { OnOk result (out.new.items
        ≡ out.old.items ++ flat_map specs.switch_line (switches size)) }
{
    for below in 0..size {
        push_switch(out, below + 1)?;
    }
    Ok(())
}

/// The line of a switch.
fn push_switch(out: &mut Vec<u8>, switch: u64) -> Result<(), AllocError>
    ensures { OnOk result (out.new.items ≡ out.old.items ++ specs.switch_line switch) }
{
    out.extend_from_slice(b"switch ")?;
    push_number(out, switch)?;
    out.extend_from_slice(b" ports 1,2,3,4,5,6,7,9\n")?;
    Ok(())
}

/// The lines that declare links: those of the ring, the chords and the tree.
pub(crate) fn push_links(
    out: &mut Vec<u8>,
    ring: &[Link],
    chords: &[Link],
    tree: &[Link],
) -> Result<(), AllocError>
    ensures { OnOk result (out.new.items ≡ out.old.items ++ (flat_map specs.link_line ring.now
        ++ flat_map specs.link_line chords.now ++ flat_map specs.link_line tree.now)) }
{
    push_kind(out, ring)?;
    push_kind(out, chords)?;
    push_kind(out, tree)
}

/// The lines that declare links of one kind.
fn push_kind(out: &mut Vec<u8>, links: &[Link]) -> Result<(), AllocError>
    ensures { OnOk result (out.new.items ≡ out.old.items ++ flat_map specs.link_line links.now) }
{
    for link in links {
        push_link(out, *link)?;
    }
    Ok(())
}

/// The line that declares a link.
fn push_link(out: &mut Vec<u8>, link: Link) -> Result<(), AllocError>
    ensures { OnOk result (out.new.items ≡ out.old.items ++ specs.link_line link) }
{
    out.extend_from_slice(b"link ")?;
    push_number(out, link.from_switch)?;
    out.extend_from_slice(b":")?;
    push_number(out, link.from_port)?;
    out.extend_from_slice(b" -> ")?;
    push_number(out, link.to_switch)?;
    out.extend_from_slice(b":")?;
    push_number(out, link.to_port)?;
    out.extend_from_slice(b"\n")?;
    Ok(())
}

/// The line of the homes.
pub(crate) fn push_homes(out: &mut Vec<u8>, homes: &[Home]) -> Result<(), AllocError>
    ensures { OnOk result (out.new.items
        ≡ out.old.items ++ specs.let_line (codes "home")
        (join_by specs.home_test (codes " + ") homes.now)) }
{
    push_name(out, b"home")?;
    push_tests(out, homes)?;
    out.extend_from_slice(b"\n")?;
    Ok(())
}

/// The lines of the ring, the chords and the tree.
pub(crate) fn push_named(
    out: &mut Vec<u8>,
    ring: &[Link],
    chords: &[Link],
    tree: &[Link],
) -> Result<(), AllocError>
    ensures { OnOk result (out.new.items
        ≡ out.old.items ++ (specs.let_line (codes "ring") (specs.literals ring.now)
        ++ specs.let_line (codes "chord") (specs.literals chords.now)
        ++ specs.let_line (codes "tree") (specs.literals tree.now))) }
{
    push_sum(out, b"ring", ring)?;
    push_sum(out, b"chord", chords)?;
    push_sum(out, b"tree", tree)
}

/// The line of a sum of links under a name.
fn push_sum(out: &mut Vec<u8>, name: &[u8], links: &[Link]) -> Result<(), AllocError>
    ensures { OnOk result (out.new.items
        ≡ out.old.items ++ specs.let_line name.now (specs.literals links.now)) }
{
    push_name(out, name)?;
    push_literals(out, links)?;
    out.extend_from_slice(b"\n")?;
    Ok(())
}

/// The front of the line that names a policy.
fn push_name(out: &mut Vec<u8>, name: &[u8]) -> Result<(), AllocError>
    ensures { OnOk result (out.new.items
        ≡ out.old.items ++ (codes "let " ++ name.now ++ codes " = ")) }
{
    out.extend_from_slice(b"let ")?;
    out.extend_from_slice(name)?;
    out.extend_from_slice(b" = ")?;
    Ok(())
}

/// The tests of homes with ` + ` between them.
fn push_tests(out: &mut Vec<u8>, homes: &[Home]) -> Result<(), AllocError>
    ensures { OnOk result (out.new.items
        ≡ out.old.items ++ join_by specs.home_test (codes " + ") homes.now) }
{
    match homes.split_first() {
        Some((first, rest)) => {
            push_test(out, *first)?;
            push_later_tests(out, rest)
        }
        None => Ok(()),
    }
}

/// The tests of homes, ` + ` before each.
fn push_later_tests(out: &mut Vec<u8>, homes: &[Home]) -> Result<(), AllocError>
    ensures { OnOk result (out.new.items
        ≡ out.old.items ++ flat_map (λ h. codes " + " ++ specs.home_test h) homes.now) }
{
    for home in homes {
        out.extend_from_slice(b" + ")?;
        push_test(out, *home)?;
    }
    Ok(())
}

/// The test for a switch and its own destination.
fn push_test(out: &mut Vec<u8>, home: Home) -> Result<(), AllocError>
    ensures { OnOk result (out.new.items ≡ out.old.items ++ specs.home_test home) }
{
    out.extend_from_slice(b"sw=")?;
    push_number(out, home.switch)?;
    out.extend_from_slice(b";dst=")?;
    push_number(out, home.destination)
}

/// The sum of the literals of links, `drop` where there is none.
fn push_literals(out: &mut Vec<u8>, links: &[Link]) -> Result<(), AllocError>
    ensures { OnOk result (out.new.items ≡ out.old.items ++ specs.literals links.now) }
{
    match links.split_first() {
        Some((first, rest)) => {
            push_literal(out, *first)?;
            push_later_literals(out, rest)
        }
        None => {
            out.extend_from_slice(b"drop")?;
            Ok(())
        }
    }
}

/// The literals of links, ` + ` before each.
fn push_later_literals(out: &mut Vec<u8>, links: &[Link]) -> Result<(), AllocError>
    ensures { OnOk result (out.new.items
        ≡ out.old.items ++ flat_map (λ l. codes " + " ++ specs.literal l) links.now) }
{
    for link in links {
        out.extend_from_slice(b" + ")?;
        push_literal(out, *link)?;
    }
    Ok(())
}

/// The literal of a link.
fn push_literal(out: &mut Vec<u8>, link: Link) -> Result<(), AllocError>
    ensures { OnOk result (out.new.items ≡ out.old.items ++ specs.literal link) }
{
    push_number(out, link.from_switch)?;
    out.extend_from_slice(b":")?;
    push_number(out, link.from_port)?;
    out.extend_from_slice(b"=>")?;
    push_number(out, link.to_switch)?;
    out.extend_from_slice(b":")?;
    push_number(out, link.to_port)
}

/// The lines of the four policies over homes and links, with this key.
pub(crate) fn push_policies(out: &mut Vec<u8>, key: u64) -> Result<(), AllocError>
    ensures { OnOk result (out.new.items ≡ out.old.items ++ specs.policy_lines key) }
{
    out.extend_from_slice(b"let hop = pt:=1;ring + pt:=3;chord\n")?;
    push_around(
        out,
        b"let go = pt=9;key:=",
        key,
        b";(~home;hop)*;home;pt:=9\n",
    )?;
    push_around(
        out,
        b"let same = pt=9;key:=",
        key,
        b";(id + ~home;hop;(~home;hop)*);home;pt:=9\n",
    )?;
    out.extend_from_slice(b"let cast = sw=1;pt=9;(pt:=5;tree + pt:=6;tree)*;pt:=9\n")?;
    Ok(())
}

/// A number with one text before it and one after.
fn push_around(out: &mut Vec<u8>, before: &[u8], n: u64, following: &[u8]) -> Result<(), AllocError>
    ensures { OnOk result (out.new.items
        ≡ out.old.items ++ (before.now ++ decimal n ++ following.now)) }
{
    out.extend_from_slice(before)?;
    push_number(out, n)?;
    out.extend_from_slice(following)?;
    Ok(())
}

/// Puts a number after a text.
fn push_number(out: &mut Vec<u8>, n: u64) -> Result<(), AllocError>
    ensures { OnOk result (out.new.items ≡ out.old.items ++ decimal n) }
{
    let mut buffer = Buffer::new();
    out.extend_from_slice(buffer.format(n).as_bytes())?;
    Ok(())
}
