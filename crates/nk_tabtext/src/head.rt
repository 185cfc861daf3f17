//! The first line and the lines of fields, tag, switches and links, each put after a text.
ghost use Rattle.std.specs.Prelude.{◌≡◌, ◌++◌, ◌<◌, length, slice_index, codes, OnOk};
ghost use Rattle.std.specs.Fmt.{decimal};
ghost use Rattle.std.specs.List.{flat_map};
ghost use Rattle.nk_topo.specs.Topology.{ports_of};
ghost use Rattle.nk_topo.specs.Inside.{link_of};
ghost use Rattle.nk_tabtext.specs.Text.{name_of, field_text, fields_text, tag_text, ports_text, switch_text, link_text, topology_text, version_text};
ghost use Rattle.nk_tabtext.specs.Written.{head_text};

use crate::number;
use nk_field::{Fid, Fields};
use nk_topo::Topo;
use std::alloc::AllocError;

/// The lines before the tables.
pub(crate) fn head(
    out: &mut Vec<u8>,
    version: u64,
    fs: &Fields,
    topo: &Topo,
) -> Result<(), AllocError>
    ensures { OnOk result (out.new.items ≡ out.old.items ++ head_text version fs.now topo.now) }
{
    first_line(out, version)?;
    fields(out, fs)?;
    tag(out, fs)?;
    topology(out, topo)
}

/// The first line, with the number of the version.
fn first_line(out: &mut Vec<u8>, version: u64) -> Result<(), AllocError>
    ensures { OnOk result (out.new.items ≡ out.old.items ++ version_text version) }
{
    out.extend_from_slice(b"tables ")?;
    number(out, version)?;
    out.extend_from_slice(b"\n")?;
    Ok(())
}

/// The lines of the declared fields, in order.
fn fields(out: &mut Vec<u8>, fs: &Fields) -> Result<(), AllocError>
    ensures { OnOk result (out.new.items ≡ out.old.items ++ fields_text fs.now) }
{
    for place in 2..fs.declared() + 2 {
        field(out, fs, Fid::new(place as u8))?;
    }
    Ok(())
}

/// The line of a field.
fn field(out: &mut Vec<u8>, fs: &Fields, f: Fid) -> Result<(), AllocError>
    requires { f < length fs.now.maxima }
    ensures { OnOk result (out.new.items
        ≡ out.old.items ++ field_text (name_of fs.now f) (slice_index fs.now.maxima f)) }
{
    out.extend_from_slice(b"field ")?;
    out.extend_from_slice(fs.name(f).as_bytes())?;
    out.extend_from_slice(b" ")?;
    number(out, fs.max(f))?;
    out.extend_from_slice(b"\n")?;
    Ok(())
}

/// The line of the tag.
fn tag(out: &mut Vec<u8>, fs: &Fields) -> Result<(), AllocError>
    ensures { OnOk result (out.new.items ≡ out.old.items ++ tag_text fs.now) }
{
    if let Some(f) = fs.tag() {
        out.extend_from_slice(b"tag ")?;
        out.extend_from_slice(fs.name(f).as_bytes())?;
        out.extend_from_slice(b"\n")?;
    }
    Ok(())
}

/// The lines of the switches, then those of the links.
fn topology(out: &mut Vec<u8>, topo: &Topo) -> Result<(), AllocError>
    ensures { OnOk result (out.new.items ≡ out.old.items ++ topology_text topo.now) }
{
    switches(out, topo)?;
    links(out, topo.links())
}

/// The lines of the switches.
fn switches(out: &mut Vec<u8>, topo: &Topo) -> Result<(), AllocError>
    ensures { OnOk result (out.new.items
        ≡ out.old.items ++ flat_map switch_text topo.now.switches) }
{
    switch_lines(out, topo, topo.switches())
}

/// The lines of the switches with these numbers.
fn switch_lines(out: &mut Vec<u8>, topo: &Topo, numbers: &[u16]) -> Result<(), AllocError>
    ensures { OnOk result (out.new.items
        ≡ out.old.items ++ flat_map
        (λ n. switch_text (record { switch = n; ports = ports_of topo.now n })) numbers.now) }
{
    for n in numbers {
        switch(out, *n, topo.ports(*n))?;
    }
    Ok(())
}

/// The line of a switch.
fn switch(out: &mut Vec<u8>, n: u16, ports: &[u16]) -> Result<(), AllocError>
    ensures { OnOk result (out.new.items
        ≡ out.old.items ++ switch_text (record { switch = n; ports = ports.now })) }
{
    out.extend_from_slice(b"switch ")?;
    number(out, n as u64)?;
    out.extend_from_slice(b" ports ")?;
    commas(out, ports)?;
    out.extend_from_slice(b"\n")?;
    Ok(())
}

/// Ports with commas between them.
fn commas(out: &mut Vec<u8>, ports: &[u16]) -> Result<(), AllocError>
    ensures { OnOk result (out.new.items ≡ out.old.items ++ ports_text ports.now) }
{
    match ports.split_first() {
        Some((first, rest)) => {
            number(out, *first as u64)?;
            after_commas(out, rest)
        }
        None => Ok(()),
    }
}

/// Ports, a comma before each.
fn after_commas(out: &mut Vec<u8>, ports: &[u16]) -> Result<(), AllocError>
    ensures { OnOk result (out.new.items
        ≡ out.old.items ++ flat_map (λ q. codes "," ++ decimal q) ports.now) }
{
    for port in ports {
        out.extend_from_slice(b",")?;
        number(out, *port as u64)?;
    }
    Ok(())
}

/// The lines of links.
fn links(out: &mut Vec<u8>, links: &[(u16, u16, u16, u16)]) -> Result<(), AllocError>
    ensures { OnOk result (out.new.items
        ≡ out.old.items ++ flat_map (λ l. link_text (link_of l)) links.now) }
{
    for l in links {
        link(out, *l)?;
    }
    Ok(())
}

/// The line of a link.
fn link(out: &mut Vec<u8>, l: (u16, u16, u16, u16)) -> Result<(), AllocError>
    ensures { OnOk result (out.new.items ≡ out.old.items ++ link_text (link_of l)) }
{
    out.extend_from_slice(b"link ")?;
    number(out, l.0 as u64)?;
    out.extend_from_slice(b":")?;
    number(out, l.1 as u64)?;
    out.extend_from_slice(b" -> ")?;
    number(out, l.2 as u64)?;
    out.extend_from_slice(b":")?;
    number(out, l.3 as u64)?;
    out.extend_from_slice(b"\n")?;
    Ok(())
}
