//! What is asked of a fabric, as policies to compare.
ghost use Rattle.std.specs.Prelude.{◌≡◌, None, Some, IfOk};
ghost use Rattle.nk_policy.specs.Tree.{tree_of, trees_of};
ghost use Rattle.nk_virtual.specs.Endings.{without_records as bare_of};
ghost use Rattle.nk_virtual.specs.Held.{virtual_link_of};
ghost use Rattle.nk_virtual.specs.Questions.{at_entry as entry_of, from_entry as from_entry_of, move as move_of, ends_or_move as ends_or_move_of, tests_from, only as only_of, elsewhere as elsewhere_of};
ghost use Rattle.nk_virtual.specs.Fabrics.{moved_along as moved_of};

use crate::ends::without_records;
use crate::fabric::FabricLink;
use nk_field::{Fid, Fields, Packet};
use nk_policy::{Pol, Pols};
use std::alloc::{AllocError, Global};

/// From the packets that enter: the move.
pub(crate) fn moves(alloc: Global, fields: &Fields, k: &FabricLink) -> Result<Pol, AllocError>
    ensures { IfOk result (λ q. tree_of q
        ≡ from_entry_of fields.now.tag (virtual_link_of k.now) (move_of (virtual_link_of k.now))) }
{
    let there = going(alloc, k)?;
    from_entry(alloc, fields, k, there)
}

/// From the packets that enter: the fabric's ends.
pub(crate) fn ends(alloc: Global, fields: &Fields, k: &FabricLink) -> Result<Pol, AllocError>
    ensures { IfOk result (λ q. tree_of q
        ≡ from_entry_of fields.now.tag (virtual_link_of k.now)
        (bare_of (virtual_link_of k.now).fabric)) }
{
    let bare = without_records(alloc, &k.fabric)?;
    from_entry(alloc, fields, k, bare)
}

/// From the packets that enter: the fabric's ends with that of the move.
pub(crate) fn ends_and_move(
    alloc: Global,
    fields: &Fields,
    k: &FabricLink,
) -> Result<Pol, AllocError>
    ensures { IfOk result (λ q. tree_of q
        ≡ from_entry_of fields.now.tag (virtual_link_of k.now)
        (ends_or_move_of (virtual_link_of k.now))) }
{
    let both = ends_or_move(alloc, k)?;
    from_entry(alloc, fields, k, both)
}

/// A policy from the packets that enter alone.
#[tactic(auto, using(nk_policy::proofs::Trees::tree_of_seq))]
fn from_entry(alloc: Global, fields: &Fields, k: &FabricLink, p: Pol) -> Result<Pol, AllocError>
    ensures { IfOk result (λ q. tree_of q
        ≡ from_entry_of fields.now.tag (virtual_link_of k.now) (tree_of p)) }
{
    let first = entry(alloc, fields, k)?;
    let parts = vec![in alloc; first, p]?;
    Ok(Pol::Seq(Pols::new(parts)))
}

/// Keeps the packets that enter: without a tag at the start of the virtual link.
fn entry(alloc: Global, fields: &Fields, k: &FabricLink) -> Result<Pol, AllocError>
    ensures { IfOk result (λ q. tree_of q ≡ entry_of fields.now.tag (virtual_link_of k.now)) }
{
    match fields.tag() {
        Some(tag) => entry_by(alloc, tag, k),
        None => entry_at(alloc, k),
    }
}

/// Keeps the packets that enter, where there is a tag: without a tag at the start of the virtual link.
#[tactic(auto, using(nk_policy::proofs::Trees::tree_of_seq))]
fn entry_by(alloc: Global, tag: Fid, k: &FabricLink) -> Result<Pol, AllocError>
    ensures { IfOk result (λ q. tree_of q ≡ entry_of (Some tag) (virtual_link_of k.now)) }
{
    let parts = vec![in alloc;
        Pol::Test(Fid::SWITCH, u64::from(k.from_switch)),
        Pol::Test(Fid::PORT, u64::from(k.from_port)),
        Pol::Test(tag, 0),
    ]?;
    Ok(Pol::Seq(Pols::new(parts)))
}

/// Keeps the packets that enter, where there is no tag: at the start of the virtual link.
#[tactic(auto, using(nk_policy::proofs::Trees::tree_of_seq))]
fn entry_at(alloc: Global, k: &FabricLink) -> Result<Pol, AllocError>
    ensures { IfOk result (λ q. tree_of q ≡ entry_of None (virtual_link_of k.now)) }
{
    let parts = vec![in alloc;
        Pol::Test(Fid::SWITCH, u64::from(k.from_switch)),
        Pol::Test(Fid::PORT, u64::from(k.from_port)),
    ]?;
    Ok(Pol::Seq(Pols::new(parts)))
}

/// Moves each packet to where the virtual link ends.
#[tactic(auto, using(nk_policy::proofs::Trees::tree_of_seq))]
fn going(alloc: Global, k: &FabricLink) -> Result<Pol, AllocError>
    ensures { IfOk result (λ q. tree_of q ≡ move_of (virtual_link_of k.now)) }
{
    let parts = vec![in alloc;
        Pol::Set(Fid::SWITCH, u64::from(k.to_switch)),
        Pol::Set(Fid::PORT, u64::from(k.to_port)),
    ]?;
    Ok(Pol::Seq(Pols::new(parts)))
}

/// Ends where the fabric does, and where the move does.
#[tactic(auto, using(nk_policy::proofs::Trees::tree_of_sum))]
fn ends_or_move(alloc: Global, k: &FabricLink) -> Result<Pol, AllocError>
    ensures { IfOk result (λ q. tree_of q ≡ ends_or_move_of (virtual_link_of k.now)) }
{
    let bare = without_records(alloc, &k.fabric)?;
    let there = going(alloc, k)?;
    let parts = vec![in alloc; bare, there]?;
    Ok(Pol::Sum(Pols::new(parts)))
}

/// The fabric's histories from one packet that end elsewhere than at the moved packet.
#[tactic(auto, using(nk_policy::proofs::Trees::tree_of_seq))]
pub(crate) fn elsewhere(
    alloc: Global,
    fields: &Fields,
    k: &FabricLink,
    x: &Packet,
) -> Result<Pol, AllocError>
    ensures { IfOk result (λ q. tree_of q ≡ elsewhere_of fields.now (virtual_link_of k.now) x.now) }
{
    let first = only(alloc, fields, x)?;
    let fabric = k.fabric.copy(alloc)?;
    let there = only(alloc, fields, &moved(k, x))?;
    let others = Pol::Not(Box::new(alloc, there)?);
    let parts = vec![in alloc; first, fabric, others]?;
    Ok(Pol::Seq(Pols::new(parts)))
}

/// The packet moved to where the virtual link ends.
fn moved(k: &FabricLink, x: &Packet) -> Packet
    ensures { result ≡ moved_of (virtual_link_of k.now) x.now }
{
    let mut y = *x;
    y.put(Fid::SWITCH, u64::from(k.to_switch));
    y.put(Fid::PORT, u64::from(k.to_port));
    y
}

/// Keeps one packet alone of those in range.
#[tactic(auto, using(nk_policy::proofs::Trees::tree_of_seq))]
fn only(alloc: Global, fields: &Fields, x: &Packet) -> Result<Pol, AllocError>
    ensures { IfOk result (λ q. tree_of q ≡ only_of fields.now x.now) }
{
    let tests = tests(alloc, fields, x)?;
    Ok(Pol::Seq(Pols::new(tests)))
}

/// Tests for the values of a packet, one for each field.
fn tests(alloc: Global, fields: &Fields, x: &Packet) -> Result<Vec<Pol>, AllocError>
    ensures { IfOk result (λ ps. trees_of ps.items ≡ tests_from 0 fields.now.maxima x.now) }
{
    let _declared = fields.declared();
    let mut out = Vec::new(alloc);
    for place in 0..fields.len() {
        let f = Fid::new(place as u8);
        out.push(Pol::Test(f, x.get(f)))?;
    }
    Ok(out)
}
