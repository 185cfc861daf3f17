//! Policy trees (NetKAT: Anderson et al., POPL 2014).
ghost use Rattle.std.specs.Prelude.{◌≡◌};

use nk_field::Fid;

/// The parts of a sum or a sequence, in order.
#[derive(Debug, Drop)]
#[cycle(pol)]
pub struct Pols {
    items: Vec<Pol>,
}

/// A policy. The empty sequence keeps each packet, and the empty sum drops it.
#[derive(Debug, Drop)]
#[cycle(pol)]
pub enum Pol {
    /// Keeps the packet where the field has the value.
    Test(Fid, u64),
    /// Keeps the packet where the field's value is from the first to the second; never where the first is above the second.
    Range(Fid, u64, u64),
    /// Sets the field to the value.
    Set(Fid, u64),
    /// All that any of the parts gives.
    Sum(Pols),
    /// The parts one after another.
    Seq(Pols),
    /// Keeps the packet exactly where the predicate doesn't.
    Not(Box<Pol>),
    /// All that any number of rounds gives, 0 rounds too.
    Star(Box<Pol>),
    /// Records the packet; the number tells the dups of one policy apart.
    Dup(u32),
    /// Crosses a link: its source's switch and port, its target's, and the number of its first dup. It stands for a
    /// test of the source, a dup, the assignment of the target and a dup with the next number.
    Link(u16, u16, u16, u16, u32),
}

impl Pols {
    /// The parts in the order of the vector.
    pub fn new(items: Vec<Pol>) -> Pols
        ensures { result.items ≡ items }
    {
        Pols { items }
    }

    /// The parts in order.
    pub fn as_slice(&self) -> &[Pol]
        ensures { result.now ≡ self.now.items.items }
    {
        self.items.as_slice()
    }

    /// The parts as a vector.
    pub fn into_vec(self) -> Vec<Pol>
        ensures { result ≡ self.items }
    {
        self.items
    }
}
