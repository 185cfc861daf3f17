//! The store.
ghost use Rattle.std.specs.Prelude.{◌≡◌, ℕ, ◌≤◌, [], ◌∷◌, length, true, slice_index, Some, IfOk, IfSome, OnOk, OnErr, List as Items};
ghost use Rattle.nk_store.specs.declared.node.Out.{Out};
ghost use Rattle.nk_store.specs.Nodes.{child_at, is_empty_leaf, Sound};
ghost use Rattle.std.specs.declared.cmp.Ordering.TheVariants.{Less};
ghost use Rattle.nk_store.specs.Leaves.{out_cmp, Strict, Every, Suits, AreOrdered};
ghost use Rattle.nk_store.specs.StoreState.{IsId, node_of, look, root_field, Grows, HasLeaves, AreParts, IsNodeOf, IsStill, IsReduced, AreTidy, Agree, IsCanonical, IsOver, HasFields, recalled};
ghost use Rattle.nk_store.specs.Keys.{key_of};
ghost use Rattle.nk_store.specs.KeptAnswers.{IsKeptAnswer, keeping, passing};
ghost use Rattle.nk_store.specs.declared.operation.Operation.{Operation};

use crate::node::{Id, Node, Out};
use crate::node_table::NodeTable;
use crate::operation::Operation;
use nk_field::{Act, Fid, Fields, List, Packet};
use std::alloc::{AllocError, Global};
use std::cmp::Ordering;
use std::marker::Model;

/// Diagrams that share their nodes. Two diagrams are equal exactly where their numbers are. The store also keeps answers
/// of operations, which its contract value shows, and the two leaves that are asked for most, which it doesn't show.
pub struct Store {
    table: NodeTable,
    empty: Option<Id>,
    identity: Option<Id>,
}

impl Drop for Store {
    fn drop(self) {
        let Self {
            table: _,
            empty: _,
            identity: _,
        } = self;
    }
}

impl Model for Store {
    ghost use Rattle.nk_store.specs.StoreState.{StoreState};
    ghost use Rattle.std.specs.Prelude.{[], ◌∷◌};
    ghost use Rattle.nk_store.specs.KeptAnswers.{AreAnswers, IsKeptLeaf, passing};

    ghost Value = { StoreState };

    ghost view = { λ s. s.table };

    ghost invariant = { λ s. AreAnswers s.table s.table.kept × IsKeptLeaf s.table [] s.empty × IsKeptLeaf s.table (passing ∷ []) s.identity };
}

impl Store {
    /// A store with no node, for packets of these fields; it keeps their largest values, how many there are, and
    /// which of them is the tag.
    pub fn new(alloc: Global, fields: &Fields) -> Result<Store, AllocError>
        ensures nodes { IfOk result (λ st. st.nodes ≡ []) }
        ensures over { IfOk result (λ st. IsOver fields.now st) }
        ensures fields { IfOk result HasFields }
        ensures kept { IfOk result (λ st. st.kept ≡ []) }
    {
        Ok(Store {
            table: NodeTable::new(alloc, fields)?,
            empty: None,
            identity: None,
        })
    }

    /// The largest value of a field.
    pub fn max(&self, f: Fid) -> u64
        ensures { result ≡ slice_index self.now.maxes f }
    {
        self.table.max(f)
    }

    /// How many fields there are, the switch and the port among them: at most eighteen.
    pub fn width(&self) -> usize
        ensures is { result ≡ self.now.width }
        ensures fields { HasFields self.now }
    {
        self.table.width()
    }

    /// The field that carries the tag.
    pub fn tag(&self) -> Option<Fid>
        ensures is { result ≡ self.now.tag }
        ensures fields { HasFields self.now }
    {
        self.table.tag()
    }

    /// What holds of all diagrams of a store; it does nothing.
    pub fn laws(&self)
        ensures fields { HasFields self.now }
        ensures sound { Sound self.now.maxes self.now.nodes }
        ensures canonical { IsCanonical self.now }
        ensures nodes { (d : ℕ) → IsId self.now d → IsNodeOf self.now d (node_of self.now d) }
        ensures still { (d : ℕ) → IsId self.now d → IsStill self.now d }
        ensures reduced { (d : ℕ) → IsId self.now d → IsReduced self.now d }
        ensures tidy { AreTidy self.now }
        ensures answers { (operation : Operation) (a b d : ℕ)
            → recalled self.now operation a b ≡ Some d → IsKeptAnswer self.now operation a b d }
    {
        self.table.laws();
    }

    /// The node of a number.
    pub fn view(&self, d: Id) -> &Node
        requires { IsId self.now d }
        ensures node { result.now ≡ node_of self.now d }
        ensures means { IsNodeOf self.now d result.now }
        ensures still { IsStill self.now d }
        ensures reduced { IsReduced self.now d }
        ensures tidy { AreTidy self.now }
    {
        self.table.view(d)
    }

    /// Tells whether two diagrams give each packet the same leaf: their numbers are equal exactly then.
    pub fn same(&self, d: Id, e: Id) -> bool
        requires left { IsId self.now d }
        requires right { IsId self.now e }
        ensures yes { result ≡ true → d ≡ e }
        ensures canonical { Agree self.now d e → result ≡ true }
    {
        self.table.same(d, e)
    }

    /// Whether a diagram drops every packet: whether it is the leaf with no out.
    pub fn drops(&self, d: Id) -> bool
        requires { IsId self.now d }
        ensures is { result ≡ is_empty_leaf (node_of self.now d) }
        ensures yes { result ≡ true → (pk : Items ℕ) → look self.now d pk ≡ [] }
    {
        self.table.drops(d)
    }

    /// The leaf that a diagram gives a packet.
    pub fn look(&self, d: Id, p: &Packet) -> &[Out]
        requires { IsId self.now d }
        ensures { result.now ≡ look self.now d p.now }
    {
        self.table.look(d, p)
    }

    /// The leaf with these outs. They may come in any order and several times; the leaf has each once, in order. The
    /// only error is that memory ran out.
    pub fn leaf(&mut self, outs: List<Out>) -> Result<Id, AllocError>
        requires { Every (Suits self.old.maxes) outs }
        ensures grows { Grows self.old self.new }
        ensures kept { self.new.kept ≡ self.old.kept }
        ensures ok { IfOk result
            (λ d. (r : Items Out) × AreOrdered outs r × HasLeaves self.new d (λ pk. r)) }
        ensures later { IfOk result (λ d. root_field self.new d ≡ 18) }
    {
        self.leaf_in_order(in_order(outs))
    }

    /// The leaf with these outs, which ascend, each once.
    pub fn leaf_in_order(&mut self, outs: List<Out>) -> Result<Id, AllocError>
        requires sorted { Strict outs }
        requires suits { Every (Suits self.old.maxes) outs }
        ensures grows { Grows self.old self.new }
        ensures kept { self.new.kept ≡ self.old.kept }
        ensures ok { IfOk result (λ d. HasLeaves self.new d (λ pk. outs)) }
        ensures later { IfOk result (λ d. root_field self.new d ≡ 18) }
    {
        self.table.leaf_in_order(outs)
    }

    /// The leaf with no out: it drops every packet. The only error is that memory ran out.
    pub fn empty(&mut self) -> Result<Id, AllocError>
        ensures grows { Grows self.old self.new }
        ensures kept { self.new.kept ≡ self.old.kept }
        ensures ok { IfOk result (λ d. HasLeaves self.new d (λ pk. [])) }
        ensures later { IfOk result (λ d. root_field self.new d ≡ 18) }
    {
        if let Some(d) = self.empty {
            return Ok(d);
        }
        let d = self.leaf_in_order(List::new(self.alloc()))?;
        self.empty = Some(d);
        Ok(d)
    }

    /// The leaf that passes each packet as it is, to target 0. The only error is that memory ran out.
    pub fn identity(&mut self) -> Result<Id, AllocError>
        ensures grows { Grows self.old self.new }
        ensures kept { self.new.kept ≡ self.old.kept }
        ensures ok { IfOk result (λ d. HasLeaves self.new d (λ pk. passing ∷ [])) }
        ensures later { IfOk result (λ d. root_field self.new d ≡ 18) }
    {
        if let Some(d) = self.identity {
            return Ok(d);
        }
        let alloc = self.alloc();
        let mut outs = List::with_capacity(alloc, 1)?;
        outs.push(Out {
            act: Act::none(alloc),
            target: 0,
        })?;
        let d = self.leaf_in_order(outs)?;
        self.identity = Some(d);
        Ok(d)
    }

    /// The allocator of the nodes.
    pub fn alloc(&self) -> Global {
        self.table.alloc()
    }

    /// The diagram that gives a packet the leaf of the part that holds the field's value. The parts are pairs of an
    /// interval's upper end and its child: ends rise strictly to the field's largest value, and children test later
    /// fields alone. Neighbours with one child are joined; where one interval is left, its child is the answer.
    pub fn case(&mut self, field: Fid, parts: List<(u64, Id)>) -> Result<Id, AllocError>
        requires { AreParts self.old field parts }
        ensures grows { Grows self.old self.new }
        ensures kept { self.new.kept ≡ self.old.kept }
        ensures ok { IfOk result (λ d. HasLeaves self.new d
            (λ pk. look self.old (child_at 0 parts (slice_index pk field)) pk)) }
        ensures later { IfOk result (λ d. field ≤ root_field self.new d) }
    {
        self.table.case(field, parts)
    }

    /// How many nodes there are.
    pub fn len(&self) -> usize
        ensures { result ≡ length self.now.nodes }
    {
        self.table.len()
    }

    /// The answer of an operation on two diagrams: None exactly where none is kept under that operation and those
    /// diagrams. An operation on one diagram has it twice.
    pub fn recall(&self, operation: Operation, a: Id, b: Id) -> Option<Id>
        ensures is { result ≡ recalled self.now operation a b }
        ensures answer { IfSome result (λ d. IsKeptAnswer self.now operation a b d) }
    {
        self.table.recall(operation, a, b)
    }

    /// Keeps the answer of an operation on two diagrams: the kept answers are then the old ones and that one. The
    /// diagrams stay as they are; where memory runs out, the kept answers do too.
    pub fn keep(&mut self, operation: Operation, a: Id, b: Id, d: Id) -> Result<(), AllocError>
        requires { IsKeptAnswer self.old operation a b d }
        ensures ok { OnOk result (self.new ≡ keeping self.old operation a b d) }
        ensures kept { OnOk result (recalled self.new operation a b ≡ Some d) }
        ensures others { OnOk result
            ((o : Operation) (x y : ℕ) → (key_of o x y ≡ key_of operation a b → ⊥)
            → recalled self.new o x y ≡ recalled self.old o x y) }
        ensures nodes { self.new.nodes ≡ self.old.nodes }
        ensures grows { Grows self.old self.new }
        ensures err { OnErr result (self.new ≡ self.old) }
    {
        self.table.laws();
        self.table.keep(operation, a, b, d)
    }
}

/// The outs in order, each once.
fn in_order(outs: List<Out>) -> List<Out>
    ensures { AreOrdered outs result }
{
    if ascend(outs.as_slice()) {
        return outs;
    }
    let mut all = outs.into_vec();
    all.sort_unstable();
    all.dedup();
    List::from_vec(all)
}

/// Whether each out is before the next one.
fn ascend(outs: &[Out]) -> bool
    ensures { result ≡ true → Strict outs.now }
{
    for i in 1..outs.len() {
        if !is_before(&outs[i - 1], &outs[i]) {
            return false;
        }
    }
    true
}

/// Whether an out is before another one.
fn is_before(a: &Out, b: &Out) -> bool
    ensures { result ≡ true → out_cmp a.now b.now ≡ Less }
{
    a.cmp(b) == Ordering::Less
}
