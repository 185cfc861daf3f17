//! Virtual links with their fabrics written out.
ghost use Rattle.std.specs.Prelude.{◌≡◌, ◌≤◌, IfOk};
ghost use Rattle.nk_virtual.specs.Held.{virtual_link_of};

use nk_names::VirtualLink;
use nk_policy::Pol;
use std::alloc::{AllocError, Global};

/// A virtual link: the switch and the port where it begins, those where it ends, and its fabric.
#[derive(Debug, Drop)]
pub struct FabricLink {
    /// The switch where it begins.
    pub from_switch: u16,
    /// The port where it begins.
    pub from_port: u16,
    /// The switch where it ends.
    pub to_switch: u16,
    /// The port where it ends.
    pub to_port: u16,
    /// The policy that takes packets from the one end to the other.
    pub fabric: Pol,
}

impl FabricLink {
    /// Its numbers are those of switches and ports.
    pub(crate) fn are_small(&self)
        ensures from_switch { self.now.from_switch ≤ 65535 }
        ensures from_port { self.now.from_port ≤ 65535 }
        ensures to_switch { self.now.to_switch ≤ 65535 }
        ensures to_port { self.now.to_port ≤ 65535 }
    {
        is_small(self.from_switch);
        is_small(self.from_port);
        is_small(self.to_switch);
        is_small(self.to_port);
    }
}

/// A number of sixteen binary digits.
fn is_small(n: u16)
    ensures { n ≤ 65535 }
{}

/// A virtual link of a program, the names in its fabric written out. The only error is that memory ran out.
pub(crate) fn written(alloc: Global, k: &VirtualLink) -> Result<FabricLink, AllocError>
    ensures { IfOk result (λ l. virtual_link_of l ≡ k.now) }
{
    let fabric = k.fabric.written(alloc)?;
    Ok(FabricLink {
        from_switch: k.from_switch,
        from_port: k.from_port,
        to_switch: k.to_switch,
        to_port: k.to_port,
        fabric,
    })
}
