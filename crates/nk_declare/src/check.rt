//! Numbers of switches and ports, and what may be wrong with them.
ghost use Rattle.std.specs.Prelude.{◌≡◌, ◌++◌, ◌∷◌, false, [], None, Some, MatchResult, IfOk, OnErr, OnOk, map};
ghost use Rattle.nk_topo.specs.Topology.{has_double};
ghost use Rattle.nk_declare.specs.Declarations.{IsFirstFault, fault_if, above, links_ends, port_fault, ports_fault};

use crate::fault::{DeclareError, DeclareFault};
use nk_lex::Number;
use std::alloc::Global;
use std::collections::HashSet;
use std::marker::Model;

/// The largest number of a switch and of a port.
const LARGEST_PLACE: u64 = 65_535;

/// Ends with the fault, where something is wrong.
pub(crate) fn refuse_if(wrong: bool, kind: DeclareFault, line: u64) -> Result<(), DeclareError>
    ensures { MatchResult result (λ _. fault_if wrong kind line ≡ None)
        (λ e. fault_if wrong kind line ≡ Some e) }
{
    if wrong {
        Err(DeclareError::Fault { kind, line })
    } else {
        Ok(())
    }
}

/// The number of a switch or a port.
pub(crate) fn place_of(n: Number) -> Result<u16, DeclareError>
    ensures value { IfOk result (λ v. v ≡ n.value) }
    ensures fault { MatchResult result (λ _. above 65535 n ≡ None) (λ e. above 65535 n ≡ Some e) }
{
    refuse_if(
        LARGEST_PLACE < n.value,
        DeclareFault::ValueOutOfRange,
        n.line,
    )?;
    Ok(n.value as u16)
}

/// The four numbers of a link.
pub(crate) fn ends_of(
    a: Number,
    m: Number,
    b: Number,
    n: Number,
) -> Result<(u16, u16, u16, u16), DeclareError>
    ensures values { IfOk result (λ r. r ≡ (a.value, m.value, b.value, n.value)) }
    ensures fault { MatchResult result (λ _. links_ends a m b n ≡ None)
        (λ e. links_ends a m b n ≡ Some e) }
{
    Ok((place_of(a)?, place_of(m)?, place_of(b)?, place_of(n)?))
}

/// The ports of a switch as they come, each in range and none twice. A contract sees them as the list of their numbers.
#[derive(Drop)]
pub struct Ports {
    numbers: Vec<u16>,
    seen: HashSet<u16>,
}

impl Model for Ports {
    ghost use Rattle.std.specs.Prelude.{ℕ, List};
    ghost use Rattle.nk_declare.specs.Declarations.{AreSeen};

    ghost Value = { List ℕ };

    ghost view = { λ p. p.numbers.items };

    ghost invariant = { λ p. AreSeen p.numbers.items p.seen.keys };
}

impl Ports {
    /// No port; it takes no memory.
    pub fn new(alloc: Global) -> Ports
        ensures { result ≡ [] }
    {
        Ports {
            numbers: Vec::new(alloc),
            seen: HashSet::new(alloc),
        }
    }

    /// One more port: it is in range and new. An `Err` leaves the ports as they were.
    pub fn add(&mut self, p: Number) -> Result<(), DeclareError>
        ensures ok { OnOk result (self.new ≡ self.old ++ p.value ∷ []) }
        ensures fault { MatchResult result (λ _. port_fault self.old p ≡ None)
            (λ e. IsFirstFault e (port_fault self.old p)) }
        ensures kept { OnErr result (self.new ≡ self.old) }
    {
        let number = place_of(p)?;
        self.numbers.reserve(1)?;
        let new = self.seen.insert(number)?;
        refuse_if(!new, DeclareFault::PortTwice, p.line)?;
        self.numbers.push(number).unwrap();
        Ok(())
    }

    /// The numbers, in the order in which they came.
    pub fn as_slice(&self) -> &[u16]
        ensures numbers { result.now ≡ self.now }
        ensures once { has_double self.now ≡ false }
    {
        self.numbers.as_slice()
    }
}

/// The numbers of ports, each in range and none twice.
pub(crate) fn ports_of(alloc: Global, ports: &[Number]) -> Result<Ports, DeclareError>
    ensures numbers { IfOk result (λ v. v ≡ map (λ p. p.value) ports.now) }
    ensures fault { MatchResult result (λ _. ports_fault [] ports.now ≡ None)
        (λ e. IsFirstFault e (ports_fault [] ports.now)) }
{
    let mut all = Ports::new(alloc);
    for p in ports {
        all.add(*p)?;
    }
    Ok(all)
}
