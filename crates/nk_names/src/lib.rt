//! Programs, and the program that the declarations of a text make.
#![tactic(auto)]

ghost use Rattle.std.specs.Prelude.{◌≡◌, option_map};
ghost use Rattle.nk_names.specs.Named.{policy_named};
ghost use Rattle.nk_names.specs.ProgramValue.{AreVirtual, IsProgram};

mod body;
mod build;
mod check;
mod declare;
mod fault;
pub mod laws;
mod lets;
mod messages;
mod named_policy;
mod names;
mod reader;
pub mod reading;
mod rows;
mod shape;
mod virtual_link;
mod virtuals;

pub use fault::{FaultKind, NamesError};
pub use named_policy::NamedPolicy;
use nk_field::{Fields, List};
use nk_topo::Topo;
pub use reader::ProgramReader;
pub use rows::resolve;
use std::marker::Model;
pub use virtual_link::VirtualLink;

/// A program: its fields, its topology, and its named policies, its fabrics and its virtual links in the order of the text. The
/// names of fabrics are a set of their own. Each policy's dups are
/// numbered from 1 in text order; it has at most 1,048,576 elements and is at most 256 deep. The names
/// in a policy are kept as names, so a program takes room as its text does; `NamedPolicy::written` writes them out.
pub struct Program {
    /// The fields; the largest value of each is at most 281,474,976,710,655.
    pub fields: Fields,
    /// The switches with their ports, and the links.
    pub topo: Topo,
    /// The names of the policies, in bytes, each with its policy.
    pub lets: List<(List<u8>, NamedPolicy)>,
    /// The names of the fabrics, in bytes, each with its policy.
    pub fabrics: List<(List<u8>, NamedPolicy)>,
    /// The virtual links.
    pub virtuals: List<VirtualLink>,
}

impl Drop for Program {
    fn drop(self) {
        let Self {
            fields: _,
            topo: _,
            lets: _,
            fabrics: _,
            virtuals: _,
        } = self;
    }
}

impl Model for Program {
    ghost use Rattle.nk_names.specs.ProgramValue.{ProgramValue, IsProgram, AreVirtual};

    ghost Value = { ProgramValue };

    ghost use Rattle.nk_names.specs.CodedPolicy.{coded_policy};
    ghost use Rattle.std.specs.Coded.{codes};

    ghost coded = { Prim.hlevel (codes, coded_policy) };

    ghost view = { λ p. record { fields = p.fields; topo = p.topo; lets = p.lets; fabrics = p.fabrics; virtuals = p.virtuals } };

    ghost invariant = { λ p. IsProgram p.fields p.topo p.lets × AreVirtual p.fields p.topo p.fabrics p.virtuals };
}

impl Program {
    /// What holds of each program; it does nothing.
    pub fn laws(&self)
        ensures { IsProgram self.now.fields self.now.topo self.now.lets }
    {
        let _fields = &self.fields;
    }

    /// The policy with the name, if there is one.
    pub fn find(&self, name: &str) -> Option<&NamedPolicy>
        ensures found { option_map (λ p. p.now) result ≡ policy_named self.now name.now }
        ensures is { IsProgram self.now.fields self.now.topo self.now.lets }
    {
        let name = name.as_bytes();
        for known in self.lets.as_slice() {
            if known.0.as_slice() == name {
                return Some(&known.1);
            }
        }
        None
    }

    /// The virtual links, in the order of the text.
    pub fn virtual_links(&self) -> &[VirtualLink]
        ensures links { result.now ≡ self.now.virtuals }
        ensures is { IsProgram self.now.fields self.now.topo self.now.lets }
        ensures virtuals { AreVirtual self.now.fields self.now.topo self.now.fabrics
            self.now.virtuals }
    {
        self.virtuals.as_slice()
    }

    /// The fields and the topology. The policies are dropped.
    pub fn into_declarations(self) -> (Fields, Topo)
        ensures fields { result.0 ≡ self.fields }
        ensures topo { result.1 ≡ self.topo }
    {
        let Self {
            fields,
            topo,
            lets: _,
            fabrics: _,
            virtuals: _,
        } = self;
        (fields, topo)
    }

    /// The fields. The rest of the program is dropped.
    pub fn into_fields(self) -> Fields
        ensures { result ≡ self.fields }
    {
        let Self {
            fields,
            topo: _,
            lets: _,
            fabrics: _,
            virtuals: _,
        } = self;
        fields
    }
}
