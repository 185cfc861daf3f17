//! The walk through a diagram, down each way, that puts the rows in order. A function of the walk puts exactly the rows that its clause
//! `rows` names, in this order, and leaves the path's matches as they were (`matches`). Neither clause says anything where memory ran
//! out.
ghost use Rattle.std.specs.Prelude.{◌≡◌, ◌≤◌, [], ◌∷◌, ◌++◌, not, ◌||◌, OnOk};
ghost use Rattle.std.specs.List.{flat_map};
ghost use Rattle.nk_store.specs.StoreState.{IsId, node_of, IsCase};
ghost use Rattle.nk_store.specs.declared.node.Node.TheVariants.{Case};
ghost use Rattle.nk_extract.specs.Ways.{node_ways, span_rows, ways, rows_following, is_empty_leaf, AreBits};

use crate::row::{Frame, leaf_row};
use crate::sink::RowSink;
use nk_field::Fid;
use nk_prefix::laws::blocks_are_aligned;
use nk_prefix::{blocks, digits_of};
use nk_store::{Id, Node, Store, else_child};
use std::alloc::AllocError;

/// A choice between the blocks of a field's values and the else-child.
#[derive(Clone, Copy)]
struct Choice {
    field: Fid,
    /// The field's largest value.
    max: u64,
    other: Id,
    /// Whether each drop below a block has a row.
    shown: bool,
}

/// The values from the first to the last, and the child that they lead to.
#[derive(Clone, Copy)]
struct Span {
    first: u64,
    last: u64,
    child: Id,
}

/// Puts the rows of the diagram's ways, in the order of the ways: a row matches what the path to the diagram matches, and then what
/// its way matches. A way that ends at a drop has a row where the way is to be shown; if `shown` holds, each way has one.
#[cycle(walk)]
pub(crate) fn walk<S: RowSink>(
    st: &Store,
    frame: &Frame,
    d: Id,
    matches: &mut Vec<(Fid, u64, u8)>,
    shown: bool,
    sink: &mut S,
) -> Result<(), AllocError>
    requires id { IsId st.now d }
    requires bits { AreBits frame.now.width frame.now.tag.0 frame.now.bits }
    ensures rows { OnOk result
        (S.puts sink.old (rows_following frame.now.width frame.now.tag matches.old.items shown
        (ways frame.now.tag.0 st.now d)) sink.new) }
    ensures matches { OnOk result (matches.new.items ≡ matches.old.items) }
{
    match st.view(d) {
        Node::Leaf(outs) => leaf_row(frame, outs.as_slice(), matches.as_slice(), shown, sink),
        Node::Case(f, parts) => walk_case(st, frame, d, *f, parts.as_slice(), matches, shown, sink),
    }
}

/// Puts the rows of a choice after the matches of a path: for each part in ascending order the rows of its blocks, and last those of
/// the else-child, which match nothing at this field.
#[cycle(walk)]
fn walk_case<S: RowSink>(
    st: &Store,
    frame: &Frame,
    d: Id,
    f: Fid,
    parts: &[(u64, Id)],
    matches: &mut Vec<(Fid, u64, u8)>,
    shown: bool,
    sink: &mut S,
) -> Result<(), AllocError>
    requires case { IsCase st.now d f parts.now }
    requires bits { AreBits frame.now.width frame.now.tag.0 frame.now.bits }
    ensures rows { OnOk result
        (S.puts sink.old (rows_following frame.now.width frame.now.tag matches.old.items shown
        (node_ways st.now.maxes frame.now.tag.0 (Case f parts.now)
        (λ c. is_empty_leaf (node_of st.now c))
        (ways frame.now.tag.0 st.now))) sink.new) }
    ensures matches { OnOk result (matches.new.items ≡ matches.old.items) }
{
    let max = st.max(f);
    let other = else_child(st.alloc(), max, parts)?;
    let after_block = printed(st.drops(other), shown);
    let mut from: u128 = 0;
    for (end, c) in parts {
        let choice = Choice {
            field: f,
            max,
            other,
            shown: after_block,
        };
        let span = Span {
            first: from as u64,
            last: *end,
            child: *c,
        };
        walk_span(st, frame, choice, span, matches, sink)?;
        from = *end as u128 + 1;
    }
    walk(st, frame, other, matches, shown, sink)
}

/// Puts the rows of a span's child once for each block of the span, in the order of the blocks, after the matches of a path and the
/// block's match. Puts no row if the child is the else-child.
#[cycle(walk)]
fn walk_span<S: RowSink>(
    st: &Store,
    frame: &Frame,
    choice: Choice,
    span: Span,
    matches: &mut Vec<(Fid, u64, u8)>,
    sink: &mut S,
) -> Result<(), AllocError>
    requires id { IsId st.now span.child }
    requires bits { AreBits frame.now.width frame.now.tag.0 frame.now.bits }
    requires within { span.last ≤ choice.max }
    ensures rows { OnOk result
        (S.puts sink.old (span_rows frame.now.width frame.now.tag matches.old.items choice.max
        choice.field choice.shown choice.other
        (ways frame.now.tag.0 st.now)
        (record { first = span.first; last = span.last; child = span.child })) sink.new) }
    ensures matches { OnOk result (matches.new.items ≡ matches.old.items) }
{
    let Span { first, last, child } = span;
    if child == choice.other {
        return Ok(());
    }
    if first == last {
        blocks_are_aligned();
        let block = (first, digits_of(choice.max));
        return walk_block(st, frame, choice, child, block, matches, sink);
    }
    let all = blocks(st.alloc(), first, last, choice.max)?;
    walk_blocks(st, frame, &choice, child, all.as_slice(), matches, sink)
}

/// Puts the rows of a child once for each of these blocks, in their order, after the matches of a path and the block's match.
#[cycle(walk)]
fn walk_blocks<S: RowSink>(
    st: &Store,
    frame: &Frame,
    choice: &Choice,
    child: Id,
    blocks: &[(u64, u8)],
    matches: &mut Vec<(Fid, u64, u8)>,
    sink: &mut S,
) -> Result<(), AllocError>
    requires id { IsId st.now child }
    requires bits { AreBits frame.now.width frame.now.tag.0 frame.now.bits }
    ensures rows { OnOk result
        (S.puts sink.old (flat_map (λ b. rows_following frame.now.width frame.now.tag
        (matches.old.items ++ (choice.now.field, b.0, b.1) ∷ []) choice.now.shown
        (ways frame.now.tag.0 st.now child)) blocks.now) sink.new) }
    ensures matches { OnOk result (matches.new.items ≡ matches.old.items) }
{
    for (value, len) in blocks {
        walk_block(st, frame, *choice, child, (*value, *len), matches, sink)?;
    }
    Ok(())
}

/// Puts the rows of a child once, after the matches of a path and the match of this block.
#[cycle(walk)]
fn walk_block<S: RowSink>(
    st: &Store,
    frame: &Frame,
    choice: Choice,
    child: Id,
    block: (u64, u8),
    matches: &mut Vec<(Fid, u64, u8)>,
    sink: &mut S,
) -> Result<(), AllocError>
    requires id { IsId st.now child }
    requires bits { AreBits frame.now.width frame.now.tag.0 frame.now.bits }
    ensures rows { OnOk result (S.puts sink.old (rows_following frame.now.width frame.now.tag
        (matches.old.items ++ (choice.field, block.0, block.1) ∷ []) choice.shown
        (ways frame.now.tag.0 st.now child)) sink.new) }
    ensures matches { OnOk result (matches.new.items ≡ matches.old.items) }
{
    let (value, len) = block;
    matches.push((choice.field, value, len))?;
    walk(st, frame, child, matches, choice.shown, sink)?;
    matches.pop();
    Ok(())
}

/// Whether each drop below a block has a row: where the else-child isn't the empty leaf, or where each drop has one already.
fn printed(else_drops: bool, shown: bool) -> bool
    ensures { result ≡ (not else_drops || shown) }
{
    !else_drops || shown
}
