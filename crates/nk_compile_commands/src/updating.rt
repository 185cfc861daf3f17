//! The answer of `update OLD NEW SEED STEPS PACKET`.
ghost use Rattle.std.specs.Prelude.{◌≡◌, ◌++◌, ◌*◌, IfOk, OnOk, Some, codes, decimal, length};
ghost use Rattle.std.specs.List.{flat_map};
ghost use Rattle.nk_field.specs.Texts.{packet_of};
ghost use Rattle.nk_names.specs.ProgramOf.{program_by};
ghost use Rattle.nk_update.specs.Plans.{IsPlannable, pair_of};
ghost use Rattle.nk_flight.specs.Updates.{HaveVersions, state_in};
ghost use Rattle.nk_trace_commands.specs.Following.{ToPacket};
ghost use Rattle.nk_reply.specs.Reply.{outcome_of};
ghost use Rattle.nk_compile_commands.specs.Updating.{IsUpdateAnswer, ToPair, ToTurned, plan_for, progress_line, version_word, versioned_line};
ghost use Rattle.nk_compile_commands.specs.Updating as told;

use crate::messages::refusal_message;
use itoa::Buffer;
use nk_compile::{CompileError, TablePair, compile_pair};
use nk_field::{Fields, Packet};
use nk_flight::{UpdateFlight, Version, update};
use nk_input::{ReadText, read_program};
use nk_names::Program;
use nk_reply::CommandAnswer;
use nk_table::Tables;
use nk_topo::Topo;
use nk_trace_commands::{Follow, answer_to_word, push_counts, push_history};
use nk_update::{Plan, plan};
use std::alloc::{AllocError, Global};

/// The plan of an update, and so many turns of it that are drawn from a seed: in each the packet comes in, a copy is handled,
/// or a switch does its next plan step.
struct Turns {
    plan: Plan,
    seed: u64,
    steps: u64,
}

impl Drop for Turns {
    fn drop(self) {
        let Self {
            plan: _,
            seed: _,
            steps: _,
        } = self;
    }
}

impl Follow for Turns {
    ghost use Rattle.nk_compile_commands.specs.Updating.{ToTurned};

    ghost tells = { λ turns. ToTurned turns.plan turns.seed turns.steps };

    fn follow(
        &self,
        alloc: Global,
        t: &Tables,
        packet: &Packet,
    ) -> Result<CommandAnswer, AllocError> {
        let flight = update(alloc, &self.plan, packet, self.seed, self.steps)?;
        let text = updated_text(alloc, &t.fields, &self.plan.topo, &flight)?;
        Ok(CommandAnswer::Done(text))
    }
}

/// What updating from the policy of one name to the policy of the other name answers, over the bytes of a text. The packet
/// is written as a word, for example `sw=1,pt=2,dst=3`.
pub fn update_answer(
    alloc: Global,
    old: &str,
    new: &str,
    seed: u64,
    steps: u64,
    word: &str,
    bytes: Vec<u8>,
) -> Result<CommandAnswer, AllocError>
    ensures { IfOk result (λ s.
        IsUpdateAnswer old.now new.now seed steps word.now bytes.items (outcome_of s)) }
{
    match read_program(alloc, bytes)? {
        ReadText::Program(program) => {
            answer_to_program(alloc, &program, old, new, seed, steps, word)
        }
        ReadText::Fault(line) => Ok(CommandAnswer::Text(line)),
    }
}

/// What updating from the policy of one name to the policy of the other name answers, over a program.
fn answer_to_program(
    alloc: Global,
    program: &Program,
    old: &str,
    new: &str,
    seed: u64,
    steps: u64,
    word: &str,
) -> Result<CommandAnswer, AllocError>
    ensures { IfOk result (λ s.
        ToPair (program_by program.now) old.now new.now seed steps word.now (outcome_of s)) }
{
    match compile_pair(alloc, program, old, new) {
        Ok(pair) => answer_to_pair(alloc, &pair, seed, steps, word),
        Err(CompileError::Refused(reason)) => {
            Ok(CommandAnswer::Refused(refusal_message(alloc, &program.fields, &reason)?))
        }
        Err(CompileError::NoMemory) => Err(AllocError),
    }
}

/// What updating answers, over the tables of both policies.
fn answer_to_pair(
    alloc: Global,
    pair: &TablePair,
    seed: u64,
    steps: u64,
    word: &str,
) -> Result<CommandAnswer, AllocError>
    requires { IsPlannable (pair_of pair.now.old pair.now.new pair.now.old_tags) }
    ensures { IfOk result (λ s.
        ToPacket (ToTurned (plan_for pair.now) seed steps) pair.now.old
        (packet_of pair.now.old.fields word.now) (outcome_of s)) }
{
    let turns = Turns {
        plan: plan(alloc, &pair.old, &pair.new, pair.old_tags)?,
        seed,
        steps,
    };
    answer_to_word(alloc, &turns, &pair.old, word)
}

/// A line for each history that has left, one with the counts, and one with the plan steps that are done.
fn updated_text(
    alloc: Global,
    fields: &Fields,
    topo: &Topo,
    flight: &UpdateFlight,
) -> Result<Vec<u8>, AllocError>
    requires topo { topo.now ≡ flight.now.stages.before.topo }
    requires versions { HaveVersions (state_in flight.now) }
    ensures { IfOk result (λ text. text.items
        ≡ told.updated_text fields.now flight.now.stages (state_in flight.now)) }
{
    let mut out = Vec::new(alloc);
    push_left(alloc, &mut out, fields, flight)?;
    push_counts(&mut out, flight.left().len(), flight.len() as u64)?;
    push_progress(&mut out, flight.steps_done(), topo.switches())?;
    Ok(out)
}

/// Appends a line for each history that has left.
fn push_left(
    alloc: Global,
    out: &mut Vec<u8>,
    fields: &Fields,
    flight: &UpdateFlight,
) -> Result<(), AllocError>
    requires { HaveVersions (state_in flight.now) }
    ensures { OnOk result (out.new.items
        ≡ out.old.items ++ flat_map
        (versioned_line fields.now (state_in flight.now).versions) flight.now.flight.left) }
{
    let left = flight.left();
    for gone in left {
        match flight.version(gone.number) {
            Some(version) => push_injection(out, gone.number, version)?,
            None => unreachable!(),
        }
        push_history(alloc, out, fields, &gone.history)?;
    }
    Ok(())
}

/// Appends the number of an injection and the word for its version, each with a space after it.
fn push_injection(out: &mut Vec<u8>, number: u64, version: Version) -> Result<(), AllocError>
    ensures { OnOk result (out.new.items
        ≡ out.old.items ++ (decimal number ++ codes " " ++ version_word (Some version)
        ++ codes " ")) }
{
    let mut buffer = Buffer::new();
    out.extend_from_slice(buffer.format(number).as_bytes())?;
    out.extend_from_slice(b" ")?;
    out.extend_from_slice(word_for(version))?;
    out.extend_from_slice(b" ")
}

/// The word for a version.
fn word_for(version: Version) -> &'static [u8]
    ensures { result.now ≡ version_word (Some version) }
{
    match version {
        Version::Old => b"old",
        Version::New => b"new",
    }
}

/// Appends how many plan steps are done, of three for each of these switches.
fn push_progress(out: &mut Vec<u8>, done: u64, switches: &[u16]) -> Result<(), AllocError>
    ensures { OnOk result (out.new.items
        ≡ out.old.items ++ progress_line done (3 * length switches.now)) }
{
    let all = 3 * switches.len() as u64;
    let mut buffer = Buffer::new();
    out.extend_from_slice(b"done ")?;
    out.extend_from_slice(buffer.format(done).as_bytes())?;
    out.extend_from_slice(b" of ")?;
    out.extend_from_slice(buffer.format(all).as_bytes())?;
    out.extend_from_slice(b"\n")
}
