//! The answer of `trace HOPS PACKET`.
ghost use Rattle.std.specs.Prelude.{◌≡◌, ◌++◌, IfOk, OnOk};
ghost use Rattle.nk_reply.specs.Meant.{IsMeantBy};
ghost use Rattle.nk_reply.specs.Reply.{answer_in};
ghost use Rattle.nk_reply.specs.Use.{use_of};
ghost use Rattle.nk_trace_commands.specs.Tracing.{IsTraceAnswer, history_lines};
ghost use Rattle.nk_trace_commands.specs.Tracing as told;

use crate::following::{Follow, follow_word, push_counts, push_history};
use nk_field::{Fields, Packet};
use nk_io::Source;
use nk_reply::{CommandAnswer, Reply};
use nk_sim::{Traced, trace};
use nk_table::Tables;
use std::alloc::{AllocError, Global};

/// The histories that leave after at most so many crossings.
#[derive(Drop)]
struct Trace {
    hops: u64,
}

impl Follow for Trace {
    ghost use Rattle.nk_trace_commands.specs.Tracing.{ToLocated};

    ghost tells = { λ trace. ToLocated trace.hops };

    fn follow(
        &self,
        alloc: Global,
        t: &Tables,
        packet: &Packet,
    ) -> Result<CommandAnswer, AllocError> {
        let traced = trace(alloc, t, self.hops, packet)?;
        let text = traced_text(alloc, &t.fields, &traced)?;
        Ok(CommandAnswer::Done(text))
    }
}

/// What following a packet means to say, over a source that gives a table text. The packet is that of a word as
/// `sw=1,pt=2,dst=3`.
pub fn trace_reply<S: Source>(alloc: Global, hops: u64, word: &str, source: &mut S) -> Reply
    ensures { IsMeantBy (IsTraceAnswer hops word.now)
        (use_of S.left S.faults source.old source.new) (answer_in result) }
{
    follow_word(alloc, &Trace { hops }, word, source)
}

/// A line for each history, and one with the counts.
fn traced_text(alloc: Global, fields: &Fields, traced: &Traced) -> Result<Vec<u8>, AllocError>
    ensures { IfOk result (λ text. text.items ≡ told.traced_text fields.now traced.now) }
{
    let mut out = Vec::new(alloc);
    push_histories(alloc, &mut out, fields, traced)?;
    push_counts(&mut out, traced.histories.len(), traced.flying)?;
    Ok(out)
}

/// Appends a line for each history.
fn push_histories(
    alloc: Global,
    out: &mut Vec<u8>,
    fields: &Fields,
    traced: &Traced,
) -> Result<(), AllocError>
    ensures { OnOk result (out.new.items ≡ out.old.items ++ history_lines fields.now traced.now) }
{
    for history in traced.histories.as_slice() {
        push_history(alloc, out, fields, history)?;
    }
    Ok(())
}
