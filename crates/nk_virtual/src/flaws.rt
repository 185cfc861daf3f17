//! What is wrong with virtual links.
ghost use Rattle.std.specs.Prelude.{◌≡◌, All, IfOk};
ghost use Rattle.nk_names.specs.ProgramValue.{IsLet};
ghost use Rattle.nk_virtual.specs.Flaws.{comes_first as begins_first, earlier as earlier_of, IsFirstAmong};
ghost use Rattle.nk_virtual.specs.Reasons.{IsVerdictOf, IsFirstVerdict};

use crate::fabric::written;
use crate::judging::{Carriage, carriage_of};
use crate::refusal::VirtualRefusal;
use nk_field::{Fid, Fields};
use nk_names::VirtualLink;
use nk_static::static_fault;
use nk_topo::Topo;
use std::alloc::{AllocError, Global};

/// What is wrong with a virtual link, and where the link begins.
#[derive(Drop)]
pub(crate) struct Flaw {
    /// The switch where it begins.
    switch: u16,
    /// The port where it begins.
    port: u16,
    /// What is wrong with it.
    refusal: VirtualRefusal,
}

/// What is wrong with the first virtual link that isn't usable: of those, the one that begins at the lowest switch, and there at
/// the lowest port. A link that begins after one that isn't usable isn't judged. The only error is that memory ran out.
pub(crate) fn first_flaw(
    alloc: Global,
    fields: &Fields,
    topo: &Topo,
    tag: Fid,
    links: &[VirtualLink],
) -> Result<Option<VirtualRefusal>, AllocError>
    requires { All (λ k. IsLet fields.now k.fabric) links.now }
    ensures { IfOk result (IsFirstVerdict fields.now topo.now tag links.now) }
{
    match first_among(alloc, fields, topo, tag, links)? {
        Some(flaw) => Ok(Some(flaw.refusal)),
        None => Ok(None),
    }
}

/// What is wrong with the first virtual link that isn't usable, and where this link begins.
fn first_among(
    alloc: Global,
    fields: &Fields,
    topo: &Topo,
    tag: Fid,
    links: &[VirtualLink],
) -> Result<Option<Flaw>, AllocError>
    requires { All (λ k. IsLet fields.now k.fabric) links.now }
    ensures { IfOk result (IsFirstAmong fields.now topo.now tag links.now) }
{
    let mut first: Option<Flaw> = None;
    for k in links {
        if comes_first(k, &first) {
            let found = verdict_of(alloc, fields, topo, tag, k)?;
            first = earlier(first, k, found);
        }
    }
    Ok(first)
}

/// Whether a virtual link begins before that of the flaw, if there is one.
fn comes_first(k: &VirtualLink, first: &Option<Flaw>) -> bool
    ensures { result ≡ begins_first k.now first.now }
{
    match first {
        Some(flaw) => k.from_switch < flaw.switch
            || (k.from_switch == flaw.switch && k.from_port < flaw.port),
        None => true,
    }
}

/// The flaw of a virtual link that begins before that of the first flaw so far, or else that one.
fn earlier(first: Option<Flaw>, k: &VirtualLink, found: Option<VirtualRefusal>) -> Option<Flaw>
    ensures { result ≡ earlier_of first k.now found }
{
    match found {
        Some(refusal) => Some(Flaw {
            switch: k.from_switch,
            port: k.from_port,
            refusal,
        }),
        None => first,
    }
}

/// What is wrong with one virtual link: what the text of its fabric shows, then what is found of its histories.
fn verdict_of(
    alloc: Global,
    fields: &Fields,
    topo: &Topo,
    tag: Fid,
    k: &VirtualLink,
) -> Result<Option<VirtualRefusal>, AllocError>
    requires { IsLet fields.now k.now.fabric }
    ensures { IfOk result (IsVerdictOf fields.now topo.now tag k.now) }
{
    let link = written(alloc, k)?;
    if let Some(static_kind) = static_fault(&link.fabric, topo, tag) {
        return Ok(Some(VirtualRefusal::Static(static_kind)));
    }
    match carriage_of(alloc, fields, &link)? {
        Carriage::Carried => Ok(None),
        Carriage::OffTarget { start, history } => Ok(Some(VirtualRefusal::OffTarget {
            switch: link.from_switch,
            port: link.from_port,
            start,
            history,
        })),
        Carriage::NotCarried { start } => Ok(Some(VirtualRefusal::NotCarried {
            switch: link.from_switch,
            port: link.from_port,
            start,
        })),
    }
}
