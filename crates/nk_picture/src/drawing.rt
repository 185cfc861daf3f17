//! The Graphviz text of a network, each part of it put after a text.
ghost use Rattle.std.specs.Prelude.{◌≡◌, ◌++◌, codes, decimal, IfOk, OnOk};
ghost use Rattle.std.specs.List.{flat_map};
ghost use Rattle.nk_topo.specs.Inside.{link_of};
ghost use Rattle.nk_topo.specs.Topology.{numbers_of, ports_of};
ghost use Rattle.nk_picture.specs.Answer.{word_line};
ghost use Rattle.nk_picture.specs.Drawing as specs;

use crate::way::Place;
use itoa::Buffer;
use nk_topo::Topo;
use std::alloc::{AllocError, Global};

/// The text of a network with a way: a frame for each switch with its ports in it, an arrow for each link, and a numbered arrow
/// to each place of the way. The only error is that memory ran out.
pub(crate) fn drawing(alloc: Global, topo: &Topo, way: &[Place]) -> Result<Vec<u8>, AllocError>
    ensures { IfOk result (λ v. v.items ≡ specs.drawing topo.now way.now) }
{
    let mut out = Vec::new(alloc);
    out.extend_from_slice(b"digraph network {\n  rankdir=LR;\n  node [shape=circle];\n")?;
    push_switches(&mut out, topo)?;
    push_links(&mut out, topo)?;
    push_way(&mut out, way)?;
    out.extend_from_slice(b"}\n")?;
    Ok(out)
}

/// The switches.
fn push_switches(out: &mut Vec<u8>, topo: &Topo) -> Result<(), AllocError>
    ensures { OnOk result (out.new.items
        ≡ out.old.items ++ flat_map (specs.switch_lines topo.now) (numbers_of topo.now)) }
{
    let numbers = topo.switches();
    for number in numbers {
        push_switch(out, topo, *number)?;
    }
    Ok(())
}

/// A switch with its ports.
fn push_switch(out: &mut Vec<u8>, topo: &Topo, sw: u16) -> Result<(), AllocError>
    ensures { OnOk result (out.new.items ≡ out.old.items ++ specs.switch_lines topo.now sw) }
{
    out.extend_from_slice(b"  subgraph \"cluster ")?;
    push_number(out, sw as u64)?;
    out.extend_from_slice(b"\" {\n    label=\"switch ")?;
    push_number(out, sw as u64)?;
    out.extend_from_slice(b"\";\n")?;
    push_ports(out, topo, sw)?;
    out.extend_from_slice(b"  }\n")?;
    Ok(())
}

/// The ports of a switch.
fn push_ports(out: &mut Vec<u8>, topo: &Topo, sw: u16) -> Result<(), AllocError>
    ensures { OnOk result (out.new.items
        ≡ out.old.items ++ flat_map (specs.port_line topo.now sw) (ports_of topo.now sw)) }
{
    let ports = topo.ports(sw);
    for port in ports {
        push_port(out, topo, sw, *port)?;
    }
    Ok(())
}

/// A port of a switch.
fn push_port(out: &mut Vec<u8>, topo: &Topo, sw: u16, pt: u16) -> Result<(), AllocError>
    ensures { OnOk result (out.new.items ≡ out.old.items ++ specs.port_line topo.now sw pt) }
{
    out.extend_from_slice(b"    ")?;
    push_name(out, sw as u64, pt as u64)?;
    out.extend_from_slice(b" [label=\"")?;
    push_number(out, pt as u64)?;
    out.extend_from_slice(b"\"")?;
    out.extend_from_slice(edge_mark(topo, sw, pt))?;
    out.extend_from_slice(b"];\n")?;
    Ok(())
}

/// What an edge port has besides.
fn edge_mark(topo: &Topo, sw: u16, pt: u16) -> &'static [u8]
    ensures { result.now ≡ specs.edge_mark topo.now sw pt }
{
    if topo.is_edge(sw, pt) {
        b", peripheries=2"
    } else {
        b""
    }
}

/// The links.
fn push_links(out: &mut Vec<u8>, topo: &Topo) -> Result<(), AllocError>
    ensures { OnOk result (out.new.items
        ≡ out.old.items ++ flat_map specs.link_arrow topo.now.links) }
{
    let links = topo.links();
    for link in links {
        push_link(out, *link)?;
    }
    Ok(())
}

/// A link.
fn push_link(out: &mut Vec<u8>, link: (u16, u16, u16, u16)) -> Result<(), AllocError>
    ensures { OnOk result (out.new.items ≡ out.old.items ++ specs.link_arrow (link_of link)) }
{
    out.extend_from_slice(b"  ")?;
    push_name(out, link.0 as u64, link.1 as u64)?;
    out.extend_from_slice(b" -> ")?;
    push_name(out, link.2 as u64, link.3 as u64)?;
    out.extend_from_slice(b";\n")?;
    Ok(())
}

/// The steps of a way.
fn push_way(out: &mut Vec<u8>, way: &[Place]) -> Result<(), AllocError>
    ensures { OnOk result (out.new.items ≡ out.old.items ++ specs.step_lines way.now) }
{
    let mut before = None;
    for (i, place) in way.iter().enumerate() {
        push_step(out, before, i as u64 + 1, *place)?;
        before = Some(*place);
    }
    Ok(())
}

/// The step of this number, from a place or from outside.
fn push_step(
    out: &mut Vec<u8>,
    before: Option<Place>,
    number: u64,
    place: Place,
) -> Result<(), AllocError>
    ensures { OnOk result (out.new.items ≡ out.old.items ++ specs.step_line before number place) }
{
    out.extend_from_slice(b"  ")?;
    push_source(out, before)?;
    out.extend_from_slice(b" -> ")?;
    push_name(out, place.switch, place.port)?;
    out.extend_from_slice(b" [label=\"")?;
    push_number(out, number)?;
    out.extend_from_slice(b"\", color=red, fontcolor=red];\n")?;
    Ok(())
}

/// Where a step begins.
fn push_source(out: &mut Vec<u8>, before: Option<Place>) -> Result<(), AllocError>
    ensures { OnOk result (out.new.items ≡ out.old.items ++ specs.source_name before) }
{
    match before {
        Some(place) => push_name(out, place.switch, place.port),
        None => {
            out.extend_from_slice(b"start")?;
            Ok(())
        }
    }
}

/// The name of a port.
fn push_name(out: &mut Vec<u8>, sw: u64, pt: u64) -> Result<(), AllocError>
    ensures { OnOk result (out.new.items ≡ out.old.items ++ specs.port_name sw pt) }
{
    out.extend_from_slice(b"\"")?;
    push_number(out, sw)?;
    out.extend_from_slice(b":")?;
    push_number(out, pt)?;
    out.extend_from_slice(b"\"")?;
    Ok(())
}

/// A number.
fn push_number(out: &mut Vec<u8>, n: u64) -> Result<(), AllocError>
    ensures { OnOk result (out.new.items ≡ out.old.items ++ decimal n) }
{
    let mut buffer = Buffer::new();
    out.extend_from_slice(buffer.format(n).as_bytes())?;
    Ok(())
}

/// The line that tells which word is no packet.
pub(crate) fn word_message(alloc: Global, number: u64) -> Result<Vec<u8>, AllocError>
    ensures { IfOk result (λ v. v.items ≡ word_line number) }
{
    let mut line = Vec::from_slice(alloc, b"word ")?;
    push_number(&mut line, number)?;
    line.extend_from_slice(b": bad packet\n")?;
    Ok(line)
}
