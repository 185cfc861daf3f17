//! The nodes of a store, each once, and what is kept beside them.
ghost use Rattle.std.specs.Prelude.{◌≡◌, ℕ, ◌+◌, ◌-◌, ◌<◌, ◌≤◌, [], ◌++◌, if◌then◌else◌, length, replicate, reverse, true, slice_index, Some, IfOk, OnOk, OnErr, List as Items};
ghost use Rattle.std.specs.Map.{lookup};
ghost use Rattle.nk_store.specs.Nodes.{child_at, is_empty_leaf, Fits, Sound};
ghost use Rattle.nk_store.specs.Leaves.{Strict, Every, Suits};
ghost use Rattle.nk_store.specs.StoreState.{IsId, node_of, look, root_field, Grows, HasLeaves, AreParts, IsNodeOf, IsStill, IsReduced, AreTidy, Agree, IsCanonical, IsOver, HasFields, recalled};
ghost use Rattle.nk_store.specs.declared.operation.Key.{Key};
ghost use Rattle.nk_store.specs.Keys.{key_eq, key_of};
ghost use Rattle.nk_store.specs.KeptAnswers.{keeping};

use crate::answers::Answers;
use crate::node::{Id, Node, Out};
use crate::operation::Operation;
use crate::parts::{in_whole, part_child};
use crate::unique_table::UniqueTable;
use nk_field::{Fid, Fields, List, Packet};
use std::alloc::{AllocError, Global};
use std::marker::Model;

/// The nodes, each once, in the order in which they were made, what is kept of the fields, and the answers of operations
/// that are kept, whatever they are.
#[derive(Drop)]
pub(crate) struct NodeTable {
    nodes: UniqueTable<Node>,
    maxes: [u64; 18],
    width: usize,
    tag: Option<Fid>,
    answers: Answers,
}

impl Model for NodeTable {
    ghost use Rattle.std.specs.Prelude.{reverse};
    ghost use Rattle.nk_store.specs.Nodes.{Sound};
    ghost use Rattle.nk_store.specs.StoreState.{StoreState, HasFields};

    ghost Value = { StoreState };

    ghost view = { λ s. record { nodes = reverse s.nodes; maxes = s.maxes; width = s.width; tag = s.tag; kept = s.answers } };

    ghost invariant = { λ s. HasFields (record { nodes = reverse s.nodes; maxes = s.maxes; width = s.width; tag = s.tag; kept = s.answers })
        × Sound s.maxes (reverse s.nodes) };
}

impl NodeTable {
    /// A store with no node, for packets of these fields; it keeps their largest values, how many there are, and
    /// which of them is the tag.
    pub(crate) fn new(alloc: Global, fields: &Fields) -> Result<NodeTable, AllocError>
        ensures nodes { IfOk result (λ st. st.nodes ≡ []) }
        ensures over { IfOk result (λ st. IsOver fields.now st) }
        ensures fields { IfOk result HasFields }
        ensures kept { IfOk result (λ st. st.kept ≡ []) }
    {
        let _few = fields.declared();
        Ok(NodeTable {
            nodes: UniqueTable::new(alloc),
            maxes: maxima(fields),
            width: fields.len(),
            tag: fields.tag(),
            answers: Answers::new(alloc),
        })
    }

    /// The largest value of a field.
    pub(crate) fn max(&self, f: Fid) -> u64
        ensures { result ≡ slice_index self.now.maxes f }
    {
        self.maxes[f.place()]
    }

    /// How many fields there are, the switch and the port among them: at most eighteen.
    pub(crate) fn width(&self) -> usize
        ensures is { result ≡ self.now.width }
        ensures fields { HasFields self.now }
    {
        self.width
    }

    /// The field that carries the tag.
    pub(crate) fn tag(&self) -> Option<Fid>
        ensures is { result ≡ self.now.tag }
        ensures fields { HasFields self.now }
    {
        self.tag
    }

    /// What holds of all diagrams of a store; it does nothing.
    pub(crate) fn laws(&self)
        ensures fields { HasFields self.now }
        ensures sound { Sound self.now.maxes self.now.nodes }
        ensures canonical { IsCanonical self.now }
        ensures nodes { (d : ℕ) → IsId self.now d → IsNodeOf self.now d (node_of self.now d) }
        ensures still { (d : ℕ) → IsId self.now d → IsStill self.now d }
        ensures reduced { (d : ℕ) → IsId self.now d → IsReduced self.now d }
        ensures tidy { AreTidy self.now }
    {
        let _nodes = &self.nodes;
    }

    /// The node of a number.
    pub(crate) fn view(&self, d: Id) -> &Node
        requires { IsId self.now d }
        ensures node { result.now ≡ node_of self.now d }
        ensures means { IsNodeOf self.now d result.now }
        ensures still { IsStill self.now d }
        ensures reduced { IsReduced self.now d }
        ensures tidy { AreTidy self.now }
    {
        self.nodes.at(d.place())
    }

    /// Tells whether two diagrams give each packet the same leaf: their numbers are equal exactly then.
    pub(crate) fn same(&self, d: Id, e: Id) -> bool
        requires left { IsId self.now d }
        requires right { IsId self.now e }
        ensures yes { result ≡ true → d ≡ e }
        ensures canonical { Agree self.now d e → result ≡ true }
    {
        let _nodes = &self.nodes;
        d == e
    }

    /// Whether a diagram drops each packet: whether it is the leaf with no out.
    pub(crate) fn drops(&self, d: Id) -> bool
        requires { IsId self.now d }
        ensures is { result ≡ is_empty_leaf (node_of self.now d) }
        ensures yes { result ≡ true → (pk : Items ℕ) → look self.now d pk ≡ [] }
    {
        match self.view(d) {
            Node::Leaf(outs) => outs.is_empty(),
            Node::Case(_, _) => false,
        }
    }

    /// The leaf that a diagram gives a packet.
    pub(crate) fn look(&self, d: Id, p: &Packet) -> &[Out]
        requires { IsId self.now d }
        ensures { result.now ≡ look self.now d p.now }
    {
        let mut at = d;
        loop {
            match self.view(at) {
                Node::Leaf(outs) => return outs.as_slice(),
                Node::Case(f, parts) => {
                    at = part_child(parts.as_slice(), p.get(*f));
                }
            }
        }
    }

    /// The leaf with these outs, which ascend, each once.
    pub(crate) fn leaf_in_order(&mut self, outs: List<Out>) -> Result<Id, AllocError>
        requires sorted { Strict outs }
        requires suits { Every (Suits self.old.maxes) outs }
        ensures grows { Grows self.old self.new }
        ensures kept { self.new.kept ≡ self.old.kept }
        ensures ok { IfOk result (λ d. HasLeaves self.new d (λ pk. outs)) }
        ensures later { IfOk result (λ d. root_field self.new d ≡ 18) }
    {
        self.place(Node::Leaf(outs))
    }

    /// The allocator of the nodes.
    pub(crate) fn alloc(&self) -> Global {
        self.nodes.alloc()
    }

    /// The diagram that gives a packet the leaf of the part that holds the field's value. The parts are pairs of an
    /// interval's upper end and its child: ends rise strictly to the field's largest value, and children test later
    /// fields alone. Neighbours with one child are joined; where one interval is left, its child is the answer.
    pub(crate) fn case(&mut self, field: Fid, parts: List<(u64, Id)>) -> Result<Id, AllocError>
        requires { AreParts self.old field parts }
        ensures grows { Grows self.old self.new }
        ensures kept { self.new.kept ≡ self.old.kept }
        ensures ok { IfOk result (λ d. HasLeaves self.new d
            (λ pk. look self.old (child_at 0 parts (slice_index pk field)) pk)) }
        ensures later { IfOk result (λ d. field ≤ root_field self.new d) }
    {
        self.choice(field, parts)
    }

    /// The diagram of a choice by a field.
    fn choice(&mut self, field: Fid, parts: List<(u64, Id)>) -> Result<Id, AllocError>
        requires { AreParts self.old field parts }
        ensures grows { Grows self.old self.new }
        ensures kept { self.new.kept ≡ self.old.kept }
        ensures ok { IfOk result (λ d. HasLeaves self.new d
            (λ pk. look self.old (child_at 0 parts (slice_index pk field)) pk)) }
        ensures later { IfOk result (λ d. field ≤ root_field self.new d) }
    {
        let kept = in_whole(self.nodes.alloc(), parts)?;
        if kept.len() == 1 {
            return Ok(kept.at(0).1);
        }
        let d = self.place(Node::Case(field, kept))?;
        let _nodes = &self.nodes;
        Ok(d)
    }

    /// How many nodes there are.
    pub(crate) fn len(&self) -> usize
        ensures { result ≡ length self.now.nodes }
    {
        self.nodes.len()
    }

    /// The answer that is kept of an operation on two diagrams.
    #[tactic(auto, unfolding(crate::specs::StoreState::recalled))]
    pub(crate) fn recall(&self, operation: Operation, a: Id, b: Id) -> Option<Id>
        ensures { result ≡ recalled self.now operation a b }
    {
        self.answers.recall(operation, a, b)
    }

    /// Keeps one answer more; where memory runs out, all stays as it was.
    pub(crate) fn keep(
        &mut self,
        operation: Operation,
        a: Id,
        b: Id,
        d: Id,
    ) -> Result<(), AllocError>
        ensures ok { OnOk result (self.new ≡ keeping self.old operation a b d) }
        ensures found { OnOk result ((q : Key) → lookup (key_eq q) self.new.kept
            ≡ (if key_eq (key_of operation a b) q then Some d
            else lookup (key_eq q) self.old.kept)) }
        ensures err { OnErr result (self.new ≡ self.old) }
    {
        self.answers.keep(operation, a, b, d)
    }

    /// The number of this node, which is made where it isn't there.
    fn place(&mut self, node: Node) -> Result<Id, AllocError>
        requires { Fits self.old.maxes self.old.nodes node }
        ensures grows { Grows self.old self.new }
        ensures kept { self.new.kept ≡ self.old.kept }
        ensures ok { IfOk result (λ d. IsId self.new d × (node_of self.new d ≡ node)) }
    {
        let place = self.nodes.intern(node)?;
        Id::new(place)
    }
}

/// The largest value of each field by its index, 0 where no field is.
fn maxima(fields: &Fields) -> [u64; 18]
    requires { length fields.now.maxima ≤ 18 }
    ensures { result ≡ fields.now.maxima ++ replicate (18 - length fields.now.maxima) 0 }
{
    let mut all = [0; 18];
    for place in 0..fields.len() {
        all[place] = fields.max(Fid::new(place as u8));
    }
    all
}
