//! One row: its priority, its matches and its buckets.
ghost use Rattle.std.specs.Prelude.{◌≡◌, ◌≤◌, ◌<◌, ◌*◌, ◌++◌, ℕ, [], ◌∷◌, length, min, take, drop, false, not, ◌==◌, if◌then◌else◌, IfOk, OnOk};
ghost use Rattle.nk_extract.specs.RuleTree.{put_match, priority_of};
ghost use Rattle.nk_extract.specs.Ways.{bucket_list, rows_following, AreBits};

use crate::sink::RowSink;
use nk_field::Fid;
use nk_store::Out;
use std::alloc::AllocError;

/// How many fields there are, the match of the tag in these rows (the field, its value and all its digits), and the bit
/// of each field by its index.
#[derive(Clone, Copy)]
pub(crate) struct Frame {
    pub width: usize,
    pub tag: (Fid, u64, u8),
    pub bits: [u32; 18],
}

/// Puts the row of a leaf that has these outs, at the end of a way with these matches. A leaf without outs drops: it has a row only
/// where `shown` holds. Nothing is said of the sink where memory ran out.
pub(crate) fn leaf_row<S: RowSink>(
    frame: &Frame,
    outs: &[Out],
    matches: &[(Fid, u64, u8)],
    shown: bool,
    sink: &mut S,
) -> Result<(), AllocError>
    requires { AreBits frame.now.width frame.now.tag.0 frame.now.bits }
    ensures { OnOk result (S.puts sink.old
        (rows_following frame.now.width frame.now.tag matches.now shown
        (record { matches = []; buckets = bucket_list frame.now.tag.0 outs.now; shown = false }
        ∷ [])) sink.new) }
{
    if outs.len() == 0 && !shown {
        return Ok(());
    }
    let k = place(frame.tag.0, matches);
    let bits = priority(frame, matches);
    sink.put_row(bits, &matches[..k], frame.tag, &matches[k..], outs)
}

/// The priority of a row with these matches: the sum of their fields' bits.
fn priority(frame: &Frame, matches: &[(Fid, u64, u8)]) -> u16
    requires { AreBits frame.now.width frame.now.tag.0 frame.now.bits }
    ensures { result ≡ min 65535 (priority_of frame.now.width frame.now.tag.0 matches.now) }
{
    let mut all: u32 = 0;
    for (f, _, _) in matches {
        all = all.saturating_add(frame.bits[f.place()]).min(65_535);
    }
    all as u16
}

/// The bit of each field by its index: one for each matchable field after it.
pub(crate) fn bits_of(width: usize, tag: Fid) -> [u32; 18]
    requires { width ≤ 18 }
    ensures { AreBits width tag result }
{
    let mut all = [1; 18];
    let mut bit = 1;
    for f in (0..width).rev() {
        all[f] = bit;
        bit = before_field(bit, tag, f);
    }
    all
}

/// The bit of the field before one whose bit is given.
fn before_field(bit: u32, tag: Fid, f: usize) -> u32
    requires { bit ≤ 262144 }
    ensures { result ≡ (if not (f == tag) then bit * 2 else bit) }
{
    if f != tag.place() { bit * 2 } else { bit }
}

/// Where a field's match stands among the matches.
fn place(tag: Fid, matches: &[(Fid, u64, u8)]) -> usize
    ensures within { result ≤ length matches.now }
    ensures is { (to len : ℕ) → put_match (tag, to, len) matches.now
        ≡ take result matches.now ++ (tag, to, len) ∷ drop result matches.now }
{
    for i in 0..matches.len() {
        if tag < matches[i].0 {
            return i;
        }
    }
    matches.len()
}
