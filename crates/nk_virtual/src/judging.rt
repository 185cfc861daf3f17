//! Whether a fabric carries its virtual link.
ghost use Rattle.std.specs.Prelude.{◌≡◌, Some, IfOk};
ghost use Rattle.nk_field.specs.Order.{Found};
ghost use Rattle.nk_policy.specs.After.{drop_policy};
ghost use Rattle.nk_policy.specs.Tree.{tree_of};
ghost use Rattle.nk_names.specs.ProgramValue.{IsLet};
ghost use Rattle.nk_cert.specs.Comparison.{IsComparison};
ghost use Rattle.nk_virtual.specs.Carriage.{IsCarriage, IsLeastStart, IsLeastFrom, IsLeastLeft, IsOnTarget, IsOffTarget, IsAskable, AreComparable, history_from};
ghost use Rattle.nk_virtual.specs.Held.{virtual_link_of};

use crate::fabric::FabricLink;
use crate::questions::{elsewhere, ends, ends_and_move, moves};
use nk_cert::{Compared, compare_policies};
use nk_field::{Fields, History, Packet};
use nk_policy::{Pol, Pols};
use std::alloc::{AllocError, Global};

/// What is found of a virtual link and its fabric, from the packets in range without a tag at the start of the link.
#[derive(Drop)]
pub enum Carriage {
    /// From each of them the fabric has a history, and each history ends at the packet moved to where the link ends.
    Carried,
    /// A history of the fabric ends elsewhere: the least packet that has one, and the least such history from it.
    OffTarget {
        /// The packet that it starts from.
        start: Packet,
        /// The history.
        history: History,
    },
    /// No history ends elsewhere, and from this packet, the least such one, the fabric has no history.
    NotCarried {
        /// The packet.
        start: Packet,
    },
}

/// Whether the fabric of a virtual link carries it: from each packet in range without a tag at the start of the link the
/// fabric has a history, and each ends at the packet with the switch and the port of the link's end, all else as it was
/// (virtual networks: Casado et al., PRESTO 2010; Smolka et al., ICFP 2015). A history that ends elsewhere is found first: the one
/// with the least start packet, and of several from there the least by the order of histories; then the least packet without a
/// history. Three comparisons of policies tell it: the fabric's ends, its dups left out, with and beside the move of the link, and
/// its histories from one packet beside none. The only error is that memory ran out.
pub fn carriage_of(alloc: Global, fields: &Fields, k: &FabricLink) -> Result<Carriage, AllocError>
    requires { IsLet fields.now (tree_of k.now.fabric) }
    ensures { IfOk result (IsCarriage fields.now (virtual_link_of k.now)) }
{
    let _declared = fields.declared();
    k.are_small();
    match least_start(alloc, fields, k)? {
        Some(start) => off_target(alloc, fields, k, &start),
        None => on_target(alloc, fields, k),
    }
}

/// The first history off target, which starts from the least start.
fn off_target(
    alloc: Global,
    fields: &Fields,
    k: &FabricLink,
    start: &Packet,
) -> Result<Carriage, AllocError>
    requires askable { IsAskable fields.now (virtual_link_of k.now) }
    requires least { IsLeastStart fields.now (virtual_link_of k.now) (Some start.now) }
    ensures { IfOk result (IsCarriage fields.now (virtual_link_of k.now)) }
{
    let (start, history) = least_from(alloc, fields, k, start)?;
    Ok(Carriage::OffTarget { start, history })
}

/// What is found where each history is on target.
fn on_target(alloc: Global, fields: &Fields, k: &FabricLink) -> Result<Carriage, AllocError>
    requires askable { IsAskable fields.now (virtual_link_of k.now) }
    requires target { IsOnTarget fields.now (virtual_link_of k.now) }
    ensures { IfOk result (IsCarriage fields.now (virtual_link_of k.now)) }
{
    match least_left(alloc, fields, k)? {
        Some(start) => Ok(Carriage::NotCarried { start }),
        None => Ok(Carriage::Carried),
    }
}

/// The least packet from which a history is off target.
fn least_start(alloc: Global, fields: &Fields, k: &FabricLink) -> Result<Option<Packet>, AllocError>
    requires { IsAskable fields.now (virtual_link_of k.now) }
    ensures { IfOk result (IsLeastStart fields.now (virtual_link_of k.now)) }
{
    let either = ends_and_move(alloc, fields, k)?;
    let move_alone = moves(alloc, fields, k)?;
    match compared(alloc, fields, &either, &move_alone)? {
        Compared::Related(_) => Ok(None),
        Compared::Broken(added) => Ok(Some(added.start)),
    }
}

/// The least packet without a history, where each history is on target.
fn least_left(alloc: Global, fields: &Fields, k: &FabricLink) -> Result<Option<Packet>, AllocError>
    requires askable { IsAskable fields.now (virtual_link_of k.now) }
    requires target { IsOnTarget fields.now (virtual_link_of k.now) }
    ensures { IfOk result (IsLeastLeft fields.now (virtual_link_of k.now)) }
{
    let fabric = ends(alloc, fields, k)?;
    let move_alone = moves(alloc, fields, k)?;
    match compared(alloc, fields, &fabric, &move_alone)? {
        Compared::Related(_) => Ok(None),
        Compared::Broken(left) => Ok(Some(left.start)),
    }
}

/// The least history off target from a packet that has one, with the packet.
fn least_from(
    alloc: Global,
    fields: &Fields,
    k: &FabricLink,
    start: &Packet,
) -> Result<(Packet, History), AllocError>
    requires askable { IsAskable fields.now (virtual_link_of k.now) }
    requires some { (f : Found) × IsOffTarget fields.now (virtual_link_of k.now) f
        × (f.start ≡ start.now) }
    ensures { IfOk result (λ r.
        IsLeastFrom fields.now (virtual_link_of k.now) start.now (history_from r.0 r.1)) }
{
    let others = elsewhere(alloc, fields, k, start)?;
    let nothing = dropping(alloc);
    match compared(alloc, fields, &others, &nothing)? {
        Compared::Related(_) => unreachable!(),
        Compared::Broken(found) => Ok((found.start, found.history)),
    }
}

/// Two policies compared.
fn compared(alloc: Global, fields: &Fields, p: &Pol, q: &Pol) -> Result<Compared, AllocError>
    requires { AreComparable fields.now (tree_of p.now) (tree_of q.now) }
    ensures { IfOk result (IsComparison fields.now (tree_of p.now) (tree_of q.now)) }
{
    compare_policies(alloc, fields, p, q)
}

/// The policy that drops each packet.
#[tactic(auto, using(nk_policy::proofs::Trees::tree_of_sum))]
fn dropping(alloc: Global) -> Pol
    ensures { tree_of result ≡ drop_policy }
{
    Pol::Sum(Pols::new(Vec::new(alloc)))
}
