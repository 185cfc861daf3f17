//! Nodes.
ghost use Rattle.std.specs.Prelude.{◌≡◌, ℕ, IfOk};

use nk_field::{Act, Fid, List};
use std::alloc::AllocError;
use std::marker::Model;

/// The number of a node of a store.
#[derive(Clone, Copy, PartialEq, Eq, PartialOrd, Ord, Hash)]
pub struct Id {
    place: u32,
}

impl Model for Id {
    ghost Value = { ℕ };

    ghost view = { λ d. d.place };

    ghost inverse = { λ n. record { place = n } };
}

impl Id {
    /// The number of the node at this index. It has 32 bits, so that answers and parts take little memory: more nodes than that
    /// count as more than memory holds.
    pub(crate) fn new(place: usize) -> Result<Id, AllocError>
        ensures { IfOk result (λ d. d ≡ place) }
    {
        match u32::try_from(place) {
            Ok(place) => Ok(Id { place }),
            Err(_) => Err(AllocError),
        }
    }

    /// The index of the node with this number.
    pub(crate) fn place(self) -> usize
        ensures { result ≡ self }
    {
        self.place as usize
    }
}

/// One thing that a leaf does: it changes the packet by the act and sends it to the target.
#[derive(PartialEq, Eq, PartialOrd, Ord)]
pub struct Out {
    /// The assignments that are made.
    pub act: Act,
    /// The number of the target, which the user of the store gives a meaning.
    pub target: u64,
}

impl Drop for Out {
    fn drop(self) {
        let Self { act: _, target: _ } = self;
    }
}

impl Out {
    /// A copy of the out. The only error is that memory ran out.
    pub fn copy(&self) -> Result<Out, AllocError>
        ensures { IfOk result (λ o. o ≡ self.now) }
    {
        let act = self.act.copy()?;
        Ok(Out {
            act,
            target: self.target,
        })
    }
}

/// A leaf with its outs, or a choice by the value of a field: pairs of an interval's upper end and its child.
#[derive(PartialEq, Eq)]
pub enum Node {
    /// A leaf: its outs ascend, each once.
    Leaf(List<Out>),
    /// A choice by the value of a field: ends rise to the field's largest value, two parts or more, neighbours with
    /// different children.
    Case(Fid, List<(u64, Id)>),
}

impl Drop for Node {
    fn drop(self) {
        match self {
            Node::Leaf(_) => {}
            Node::Case(_, _) => {}
        }
    }
}
