//! What takes rows as they are made.
ghost use Rattle.std.specs.Prelude.{◌≡◌, ◌++◌, ◌∷◌, [], OnOk, IfOk};
ghost use Rattle.nk_extract.specs.Ways.{bucket_list};

use crate::out_buckets::buckets;
use nk_field::{Fid, List};
use nk_store::Out;
use nk_table::Plain;
use std::alloc::{AllocError, Global};

/// What takes rows, one after the other, so that none of them need be kept. To compile an access list of 200 flows at one switch,
/// with one tag and a text of 117,419 lines, took 45 MB and 425 million instructions with rows that are kept. It takes 12 MB and
/// 353 million instructions with rows that are put to the text.
pub trait RowSink {
    ghost use Rattle.std.specs.Prelude.{List};
    ghost use Rattle.nk_table.specs.declared.Plain.{Plain};

    /// Between the first state and the second these rows were put, in this order.
    ghost puts: { Self → List Plain → Self → Type 0 };

    /// One more row: its priority, its matches, the tag's between those before it and those after it, and a bucket for each out. The
    /// only error is that memory ran out; nothing is said of what was put then.
    fn put_row(
        &mut self,
        priority: u16,
        before: &[(Fid, u64, u8)],
        tag: (Fid, u64, u8),
        after: &[(Fid, u64, u8)],
        outs: &[Out],
    ) -> Result<(), AllocError>
        ensures { OnOk result (puts self.old (record {
          priority = priority;
          matches = before.now ++ tag ∷ after.now;
          buckets = bucket_list tag.0 outs.now;
        } ∷ []) self.new) };

    /// Between a state and itself none were put.
    ghost no_rows: { (s : Self) → puts s [] s };

    /// What was put up to a state and from there on was put in all.
    ghost more_rows: { (s t u : Self) (rows more : List Plain) → puts s rows t → puts t more u → puts s (rows ++ more) u };
}

/// A vector keeps them after what stands in it.
impl RowSink for Vec<Plain> {
    ghost use Rattle.std.proofs.lemmas.List.{append-nil, append_assoc};
    ghost use Rattle.std.proofs.Common.{sym, ap, ◌∙◌};

    ghost puts = { λ list rows longer. longer.items ≡ list.items ++ rows };

    fn put_row(
        &mut self,
        priority: u16,
        before: &[(Fid, u64, u8)],
        tag: (Fid, u64, u8),
        after: &[(Fid, u64, u8)],
        outs: &[Out],
    ) -> Result<(), AllocError> {
        let alloc = *self.allocator();
        let row = Plain {
            priority,
            matches: joined(alloc, before, tag, after)?,
            buckets: buckets(alloc, tag.0, outs)?,
        };
        self.push(row)?;
        Ok(())
    }

    ghost no_rows = { λ list. sym (append-nil list.items) };

    ghost more_rows = { λ s t u rows more put then. then ∙ ap (λ l. l ++ more) put ∙ append_assoc s.items rows more };
}

/// The matches before the tag's, the tag's, and those after it.
fn joined(
    alloc: Global,
    before: &[(Fid, u64, u8)],
    tag: (Fid, u64, u8),
    after: &[(Fid, u64, u8)],
) -> Result<List<(Fid, u64, u8)>, AllocError>
    ensures { IfOk result (λ ms. ms ≡ before.now ++ tag ∷ after.now) }
{
    let most = before.len().saturating_add(after.len()).saturating_add(1);
    let mut all = Vec::with_capacity(alloc, most)?;
    push_all(&mut all, before)?;
    all.push(tag)?;
    push_all(&mut all, after)?;
    Ok(List::from_vec(all))
}

/// Puts matches at the end, one by one, as they are few.
fn push_all(all: &mut Vec<(Fid, u64, u8)>, matches: &[(Fid, u64, u8)]) -> Result<(), AllocError>
    ensures { OnOk result (all.new.items ≡ all.old.items ++ matches.now) }
{
    for m in matches {
        all.push(*m)?;
    }
    Ok(())
}
