//! A node with children at single values of its field, and one more child at all other values.
ghost use Rattle.std.specs.Prelude.{◌≡◌, ℕ, ◌<◌, ◌≤◌, ◌++◌, map, slice_index, All, AllPairs, IfOk, OnOk};
ghost use Rattle.nk_store.specs.Nodes.{child_at};
ghost use Rattle.nk_store.specs.StoreState.{Grows, IsChild, AreParts};
ghost use Rattle.nk_compile.specs.Children.{beside, part_below, part_to, IsBeside};

use nk_field::{Fid, List};
use nk_store::{Id, Store};
use std::alloc::AllocError;

/// The diagram that tests the field: each of these values leads to its child, and all other values
/// lead to `other`. The values ascend. The only error is that memory ran out.
pub(crate) fn by_values(
    st: &mut Store,
    f: Fid,
    other: Id,
    children: &[(u16, Id)],
) -> Result<Id, AllocError>
    requires field { f < 18 }
    requires high { 65535 ≤ slice_index st.old.maxes f }
    requires ascend { AllPairs (λ v w. v < w) (map (λ c. c.0) children.now) }
    requires other { IsChild st.old f other }
    requires children { All (λ c. IsChild st.old f c.1) children.now }
    ensures grows { Grows st.old st.new }
    ensures ok { IfOk result (λ d. IsBeside st.old f other children.now st.new d) }
{
    let parts = all_parts(st, f, other, children)?;
    st.case(f, parts)
}

/// The parts by the field: each child at its value, `other` elsewhere.
fn all_parts(
    st: &Store,
    f: Fid,
    other: Id,
    children: &[(u16, Id)],
) -> Result<List<(u64, Id)>, AllocError>
    requires field { f < 18 }
    requires high { 65535 ≤ slice_index st.now.maxes f }
    requires ascend { AllPairs (λ v w. v < w) (map (λ c. c.0) children.now) }
    requires other { IsChild st.now f other }
    requires children { All (λ c. IsChild st.now f c.1) children.now }
    ensures parts { IfOk result (λ ps. AreParts st.now f ps) }
    ensures child { IfOk result (λ ps. (v : ℕ) → v ≤ slice_index st.now.maxes f →
        child_at 0 ps v ≡ beside other children.now v) }
{
    let high = st.max(f);
    let most = children.len().saturating_mul(2).saturating_add(1);
    let mut parts = List::with_capacity(st.alloc(), most)?;
    let mut next = 0;
    for i in 0..children.len() {
        let (value, child) = children[i];
        let value = value as u64;
        push_below(&mut parts, next, value, other)?;
        parts.push((value, child))?;
        next = value + 1;
    }
    push_to(&mut parts, next, high, other)?;
    Ok(parts)
}

/// Puts the part for the values from low on that are below high, if there are any.
fn push_below(parts: &mut List<(u64, Id)>, low: u64, high: u64, d: Id) -> Result<(), AllocError>
    ensures { OnOk result (parts.new ≡ parts.old ++ part_below low high d) }
{
    if low < high {
        parts.push((high - 1, d))?;
    }
    Ok(())
}

/// Puts the part for the values from low to high, if there are any.
fn push_to(parts: &mut List<(u64, Id)>, low: u64, high: u64, d: Id) -> Result<(), AllocError>
    ensures { OnOk result (parts.new ≡ parts.old ++ part_to low high d) }
{
    if low <= high {
        parts.push((high, d))?;
    }
    Ok(())
}
