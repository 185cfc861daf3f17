//! The answer of `fly SEED STEPS PACKET`.
ghost use Rattle.std.specs.Prelude.{◌≡◌, ◌++◌, IfOk, OnOk};
ghost use Rattle.std.specs.List.{flat_map};
ghost use Rattle.nk_reply.specs.Meant.{IsMeantBy};
ghost use Rattle.nk_reply.specs.Reply.{answer_in};
ghost use Rattle.nk_reply.specs.Use.{use_of};
ghost use Rattle.nk_trace_commands.specs.Flying.{IsFlyAnswer, left_line};
ghost use Rattle.nk_trace_commands.specs.Flying as told;

use crate::following::{Follow, follow_word, push_counts, push_history};
use nk_field::{Fields, Packet};
use nk_flight::{Flight, Left, fly};
use nk_io::Source;
use nk_reply::{CommandAnswer, Reply};
use nk_table::Tables;
use std::alloc::{AllocError, Global};

/// The flight of one packet, in which so many draws from a seed say which copy is handled.
#[derive(Drop)]
struct Fly {
    seed: u64,
    steps: u64,
}

impl Follow for Fly {
    ghost use Rattle.nk_trace_commands.specs.Flying.{ToFlown};

    ghost tells = { λ fly. ToFlown fly.seed fly.steps };

    fn follow(
        &self,
        alloc: Global,
        t: &Tables,
        packet: &Packet,
    ) -> Result<CommandAnswer, AllocError> {
        let flight = fly(alloc, t, packet, self.seed, self.steps)?;
        let text = flown_text(alloc, &t.fields, &flight)?;
        Ok(CommandAnswer::Done(text))
    }
}

/// What a flight of one packet means to say, over a source that gives a table text. The packet is that of a word as
/// `sw=1,pt=2,dst=3`.
pub fn fly_reply<S: Source>(
    alloc: Global,
    seed: u64,
    steps: u64,
    word: &str,
    source: &mut S,
) -> Reply
    ensures { IsMeantBy (IsFlyAnswer seed steps word.now)
        (use_of S.left S.faults source.old source.new) (answer_in result) }
{
    follow_word(alloc, &Fly { seed, steps }, word, source)
}

/// A line for each history that has left, and one with the counts.
fn flown_text(alloc: Global, fields: &Fields, flight: &Flight) -> Result<Vec<u8>, AllocError>
    ensures { IfOk result (λ text. text.items ≡ told.flown_text fields.now flight.now) }
{
    let mut out = Vec::new(alloc);
    push_left(alloc, &mut out, fields, flight.left())?;
    push_counts(&mut out, flight.left().len(), flight.len() as u64)?;
    Ok(out)
}

/// Appends a line for each history.
fn push_left(
    alloc: Global,
    out: &mut Vec<u8>,
    fields: &Fields,
    left: &[Left],
) -> Result<(), AllocError>
    ensures { OnOk result (out.new.items
        ≡ out.old.items ++ flat_map (left_line fields.now) left.now) }
{
    for gone in left {
        push_history(alloc, out, fields, &gone.history)?;
    }
    Ok(())
}
