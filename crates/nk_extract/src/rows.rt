//! The rows of a diagram at a switch.
ghost use Rattle.std.specs.Prelude.{◌≡◌, ℕ, List, Some, OnOk, slice_index};
ghost use Rattle.nk_prefix.specs.Prefix as prefix;
ghost use Rattle.nk_store.specs.StoreState.{IsId, node_of};
ghost use Rattle.nk_table.specs.declared.Plain.{Plain};
ghost use Rattle.nk_extract.specs.Ways.{at_switch, AreBits};
ghost use Rattle.nk_extract.specs.RowsOf.{IsFrame, IsPrintable, AreRowsOf};

use crate::row::{Frame, bits_of};
use crate::sink::RowSink;
use crate::walk::walk;
use nk_prefix::digits_of;
use nk_store::{Id, Node, Store, part_child};
use std::alloc::AllocError;

/// Puts the rows of a diagram at a switch for one tag, one after the other, so that none of them need be kept: those of the
/// reduced tree whose leaf at each packet of the switch is the bucket list of the diagram's leaf there. They come by blocks
/// ascending, the else-child last.
///
/// The store has a tag, and at each packet of the switch each act of the leaf assigns what it changes, neither the
/// switch nor the tag; the leaf is the same whatever the tag. The only error is that memory ran out; some of the rows may
/// have been put then.
pub fn rows_to<S: RowSink>(
    st: &Store,
    d: Id,
    switch: u16,
    to: u64,
    sink: &mut S,
) -> Result<(), AllocError>
    requires id { IsId st.now d }
    requires frame { (tag : ℕ) × (st.now.tag ≡ Some tag)
        × IsFrame st.now st.now.width tag × IsPrintable st.now tag switch d }
    ensures { OnOk result ((rows : List Plain) × S.puts sink.old rows sink.new
        × ((tag : ℕ) → st.now.tag ≡ Some tag
        → AreRowsOf st.now st.now.width tag switch to d rows)) }
{
    let Some(tag) = st.tag() else { unreachable!() };
    let frame = Frame {
        width: st.width(),
        tag: (tag, to, digits_of(st.max(tag))),
        bits: bits_of(st.width(), tag),
    };
    rows_in(st, d, switch, &frame, sink)
}

/// Puts the rows of a diagram at a switch, in a given frame.
fn rows_in<S: RowSink>(
    st: &Store,
    d: Id,
    switch: u16,
    frame: &Frame,
    sink: &mut S,
) -> Result<(), AllocError>
    requires id { IsId st.now d }
    requires frame { IsFrame st.now frame.now.width frame.now.tag.0 }
    requires digits { frame.now.tag.2
        ≡ prefix.digits_of (slice_index st.now.maxes frame.now.tag.0) }
    requires bits { AreBits frame.now.width frame.now.tag.0 frame.now.bits }
    requires printable { IsPrintable st.now frame.now.tag.0 switch d }
    ensures { OnOk result ((rows : List Plain) × S.puts sink.old rows sink.new
        × AreRowsOf st.now frame.now.width frame.now.tag.0 switch frame.now.tag.1 d rows) }
{
    let mut matches = Vec::new(st.alloc());
    let _laws = st.laws();
    walk(
        st,
        frame,
        root(st, d, switch as u64),
        &mut matches,
        false,
        sink,
    )
}

/// The part of a diagram for a switch, or the diagram where it doesn't test the switch.
fn root(st: &Store, d: Id, switch: u64) -> Id
    requires { IsId st.now d }
    ensures is { result ≡ at_switch switch d (node_of st.now d) }
    ensures id { IsId st.now result }
{
    match st.view(d) {
        Node::Leaf(_) => d,
        Node::Case(f, parts) => {
            if f.place() == 0 {
                part_child(parts.as_slice(), switch)
            } else {
                d
            }
        }
    }
}
