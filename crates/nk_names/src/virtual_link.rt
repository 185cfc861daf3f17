//! Links that aren't there.
use crate::named_policy::NamedPolicy;
use std::marker::Model;

/// A virtual link: the switch and the port where it begins, those where it ends, and its fabric.
#[derive(Drop)]
pub struct VirtualLink {
    /// The switch where it begins.
    pub from_switch: u16,
    /// The port where it begins.
    pub from_port: u16,
    /// The switch where it ends.
    pub to_switch: u16,
    /// The port where it ends.
    pub to_port: u16,
    /// The policy that takes packets from the one end to the other.
    pub fabric: NamedPolicy,
}

impl Model for VirtualLink {
    ghost use Rattle.std.specs.Coded.{codes};
    ghost use Rattle.nk_names.specs.CodedPolicy.{coded_policy};
    ghost use Rattle.nk_names.specs.ProgramValue.{VirtualLink as Value'};
    ghost use Rattle.nk_names.specs.Virtual.{virtual_from};

    ghost Value = { Value' };

    ghost coded = { Prim.hlevel (codes, coded_policy) };

    ghost view = { λ k. virtual_from k.from_switch k.from_port k.to_switch k.to_port k.fabric };
}
