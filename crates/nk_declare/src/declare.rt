//! What is declared after one more declaration.
ghost use Rattle.std.specs.Prelude.{◌≡◌, None, Some, false, IfErr, IfOk, MatchResult, OnErr, OnOk};
ghost use Rattle.nk_topo.specs.Topology.{has_double, is_switch, with_switch};
ghost use Rattle.nk_declare.specs.Declarations.{DeclareReturns, field, tag, switch, link, declared_with, nothing_declared, number_fault};
ghost use Rattle.nk_declare.specs.InMemory.{declared_in};

use crate::check::{ends_of, place_of, ports_of, refuse_if};
use crate::fault::{DeclareError, DeclareFault};
use crate::names::field_with;
use nk_field::{Fields, FieldsError};
use nk_lex::{Ident, Number};
use nk_topo::{LinkEnd, TopoBuilder, TopoError};
use std::alloc::{AllocError, Global};

/// The fields and the topology declared so far.
///
/// Each call puts in one more declaration, or answers the declaration's first fault. Switches and links may come in any
/// order, each in the time of a search.
#[derive(Drop)]
pub struct Declared {
    /// The fields, and the tag.
    pub fields: Fields,
    /// The switches with their ports, and the links.
    pub topo: TopoBuilder,
}

impl Declared {
    /// The fields `sw` and `pt`, no switch and no link. The only error is that memory ran out.
    pub fn new(alloc: Global) -> Result<Declared, AllocError>
        ensures { IfOk result (λ d. declared_in d ≡ nothing_declared) }
    {
        let fields = Fields::new(alloc)?;
        let topo = TopoBuilder::new(alloc);
        Ok(Declared { fields, topo })
    }

    /// One more field. It is a fault that a field has the name already, or else that sixteen are declared already.
    ///
    /// An `Err` leaves what is declared as it was, here and below.
    pub fn add_field(&mut self, w: &Ident, n: Number) -> Result<(), DeclareError>
        ensures answer { DeclareReturns (λ _. declared_in self.new) result
            (declared_with (declared_in self.old) (field w.now n)) }
        ensures kept { OnErr result (declared_in self.new ≡ declared_in self.old) }
    {
        let kind = match self.fields.add(w.text.as_str(), n.value) {
            Ok(_) => return Ok(()),
            Err(FieldsError::FieldTwice) => DeclareFault::FieldTwice,
            Err(FieldsError::TooManyFields) => DeclareFault::TooManyFields,
            Err(FieldsError::NoMemory) => return Err(DeclareError::NoMemory),
        };
        Err(DeclareError::Fault { kind, line: w.line })
    }

    /// The tag, whose name stands on the line. It is a fault that there is a tag already, or else that no declared field
    /// has the name. It takes no memory.
    pub fn add_tag(&mut self, name: &[u8], line: u64) -> Result<(), DeclareError>
        ensures answer { DeclareReturns (λ _. declared_in self.new) result
            (declared_with (declared_in self.old) (tag (record { text = name.now; line = line }))) }
        ensures kept { OnErr result (declared_in self.new ≡ declared_in self.old) }
        ensures memory { IfErr result (λ e. e ≡ DeclareError.NoMemory → ⊥) }
    {
        refuse_if(self.fields.tag().is_some(), DeclareFault::TagTwice, line)?;
        match field_with(&self.fields, name) {
            Some(field) if field.place() >= 2 => {
                self.fields.set_tag(field);
                Ok(())
            }
            _ => Err(DeclareError::Fault {
                kind: DeclareFault::TagUnknown,
                line,
            }),
        }
    }

    /// The number of a switch that is declared next. It is a fault that it is above 65,535, or else that the switch is
    /// declared already. It takes no memory.
    pub fn new_switch(&self, n: Number) -> Result<u16, DeclareError>
        ensures value { IfOk result (λ v. v ≡ n.value) }
        ensures fault { MatchResult result (λ _. number_fault self.now.topo n ≡ None)
            (λ e. number_fault self.now.topo n ≡ Some e) }
    {
        let number = place_of(n)?;
        refuse_if(
            self.topo.is_switch(number),
            DeclareFault::SwitchTwice,
            n.line,
        )?;
        Ok(number)
    }

    /// One more switch, which is new, with its ports. The only error is that memory ran out.
    pub fn add_switch(&mut self, n: u16, ports: &[u16]) -> Result<(), AllocError>
        requires new { is_switch self.old.topo n ≡ false }
        requires once { has_double ports.now ≡ false }
        ensures ok { OnOk result
            (declared_in self.new
            ≡ record (declared_in self.old) { topo = with_switch self.old.topo n ports.now }) }
        ensures kept { OnErr result (declared_in self.new ≡ declared_in self.old) }
    {
        match self.topo.add_switch(n, ports) {
            Ok(()) => Ok(()),
            Err(TopoError::NoMemory) => Err(AllocError),
            Err(
                TopoError::SwitchTwice
                | TopoError::PortTwice
                | TopoError::NoSuchPort(_)
                | TopoError::SourceTwice
                | TopoError::TargetTwice,
            ) => unreachable!(),
        }
    }

    /// One more switch with its ports. The first of these faults is answered: the switch is above 65,535; it is declared
    /// already; then, port by port, the port is above 65,535 or stands before.
    pub fn declare_switch(
        &mut self,
        alloc: Global,
        n: Number,
        ports: &[Number],
    ) -> Result<(), DeclareError>
        ensures answer { DeclareReturns (λ _. declared_in self.new) result
            (declared_with (declared_in self.old) (switch n ports.now)) }
        ensures kept { OnErr result (declared_in self.new ≡ declared_in self.old) }
    {
        let number = self.new_switch(n)?;
        let ports = ports_of(alloc, ports)?;
        self.add_switch(number, ports.as_slice())?;
        Ok(())
    }

    /// One more link, from port `m` of switch `a` to port `n` of switch `b`. The first of these faults is answered: one
    /// of the four numbers is above 65,535; the source is no declared port; the target is none; a link begins at the
    /// source already; one ends at the target already.
    pub fn add_link(
        &mut self,
        a: Number,
        m: Number,
        b: Number,
        n: Number,
    ) -> Result<(), DeclareError>
        ensures answer { DeclareReturns (λ _. declared_in self.new) result
            (declared_with (declared_in self.old) (link a m b n)) }
        ensures kept { OnErr result (declared_in self.new ≡ declared_in self.old) }
    {
        let (from_switch, from_port, to_switch, to_port) = ends_of(a, m, b, n)?;
        let (kind, line) = match self
            .topo
            .add_link(from_switch, from_port, to_switch, to_port)
        {
            Ok(()) => return Ok(()),
            Err(TopoError::NoSuchPort(LinkEnd::Source)) => (DeclareFault::NoSuchPort, m.line),
            Err(TopoError::NoSuchPort(LinkEnd::Target)) => (DeclareFault::NoSuchPort, n.line),
            Err(TopoError::SourceTwice) => (DeclareFault::SourceTwice, m.line),
            Err(TopoError::TargetTwice) => (DeclareFault::TargetTwice, n.line),
            Err(TopoError::NoMemory) => return Err(DeclareError::NoMemory),
            Err(TopoError::SwitchTwice | TopoError::PortTwice) => unreachable!(),
        };
        Err(DeclareError::Fault { kind, line })
    }
}
