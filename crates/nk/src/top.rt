//! The top call.
ghost use Rattle.std.specs.Prelude.{◌≡◌, false, None, Some, IfOk};
ghost use Rattle.nk_words.specs.Words.{IsWithinLimits, command_of, texts};
ghost use Rattle.nk.specs.Answer.{IsOutcome, reads, reads_in_pieces, IsReplyTo};
ghost use Rattle.nk_reply.specs.Use.{use_of};
ghost use Rattle.nk.specs.Ends.{Ends, IsCaused, IsComplete, IsMeant, IsMeantTo, asks_for_input, TellsFaults};
ghost use Rattle.nk_reply.specs.Sent.{LeavesAlone};
ghost use Rattle.nk_reply.specs.Reply.{answer_in, outcome_of};
ghost use Rattle.nk.specs.Succeeding.{Succeeds};

use crate::generating::{gen_answer, job_answer};
use nk_compact_command::compact_answer;
use nk_compile_commands::{compile_answer, update_answer};
use nk_io::{LONGEST, Sink, Source, read_all};
use nk_reply::{CommandAnswer, Reply, Status, deliver};
use nk_trace_commands::{fly_reply, trace_reply};
use nk_verify_commands::{
    apart_query, ask_answer, check_apart_reply, check_reply, check_waypoint_reply, equal_answer,
    waypoint_query,
};
use nk_virtual_command::virtual_answer;
use nk_words::{Command, WordsError, read_words};
use std::alloc::{AllocError, Global};

/// Does what the words after the program's name ask for. Words that are no command are refused before anything is read,
/// and `gen` and `job` read nothing; for every other command the source is read to its end, which fails where a call of
/// the source fails or it has more than 16,777,216 bytes. The whole answer is built before its first byte is written: on
/// `out` for the statuses `Done` and `Differs`, on `err` for the others. After a write that fails nothing more is
/// written.
pub fn run<S: Source, O: Sink, E: Sink>(
    alloc: Global,
    words: &[String],
    source: &mut S,
    out: &mut O,
    err: &mut E,
) -> Status
    // One answer was decided on, for a stated reason, and then written completely, or its sink failed.
    ensures ends { Ends (texts words.now)
        (use_of S.left S.faults source.old source.new)
        (use_of O.taken O.faults out.old out.new)
        (use_of E.taken E.faults err.old err.new) result }
    // When each status comes.
    ensures causes { IsCaused (texts words.now)
        (use_of S.left S.faults source.old source.new)
        (use_of O.taken O.faults out.old out.new)
        (use_of E.taken E.faults err.old err.new) result }
    // Where nothing failed, the one right answer was written completely, or memory ran out.
    ensures complete { IsComplete (texts words.now)
        (use_of S.left S.faults source.old source.new)
        (use_of O.taken O.faults out.old out.new)
        (use_of E.taken E.faults err.old err.new) result }
    // Where nothing failed and memory sufficed, it ends with `Done` exactly where the bytes are such that the command is done, and
    // with `Differs` exactly where they are such that it differs.
    ensures succeeds { Succeeds (texts words.now)
        (use_of S.left S.faults source.old source.new)
        (use_of O.taken O.faults out.old out.new)
        (use_of E.taken E.faults err.old err.new) result }
    // The status tells what failed.
    ensures faults { TellsFaults
        (use_of S.left S.faults source.old source.new)
        (use_of O.taken O.faults out.old out.new)
        (use_of E.taken E.faults err.old err.new) result }
    // The status `Usage` comes only for words that are no command.
    ensures usage { result ≡ Status.Usage → command_of (texts words.now) ≡ None }
    // No call was made on the source where the words are no command, or one that doesn't read.
    ensures unread { asks_for_input (command_of (texts words.now)) ≡ false
        → source.new ≡ source.old }
    // No call was made on the sink that the answer doesn't go to.
    ensures alone { LeavesAlone result (out.new ≡ out.old) (err.new ≡ err.old) }
{
    let reply = decide(alloc, words, source);
    deliver(&reply, out, err)
}

/// What the run means to say. Nothing is written yet.
fn decide<S: Source>(alloc: Global, words: &[String], source: &mut S) -> Reply
    ensures meant { IsMeant (texts words.now)
        (use_of S.left S.faults source.old source.new) (answer_in result) }
    ensures unread { asks_for_input (command_of (texts words.now)) ≡ false
        → source.new ≡ source.old }
{
    match read_words(alloc, words) {
        Ok(command) => reply_from(alloc, &command, source),
        Err(WordsError::Usage) => Reply::Usage,
        Err(WordsError::NoMemory) => Reply::NoMemory,
    }
}

/// What the run means to say to this command.
fn reply_from<S: Source>(alloc: Global, command: &Command, source: &mut S) -> Reply
    requires { IsWithinLimits command.now }
    ensures meant { IsMeantTo (Some command.now)
        (use_of S.left S.faults source.old source.new) (answer_in result) }
    ensures unread { reads command.now ≡ false → source.new ≡ source.old }
{
    match command {
        Command::Trace(hops, packet) => trace_reply(alloc, *hops, packet.as_str(), source),
        Command::Fly(seed, steps, packet) => {
            fly_reply(alloc, *seed, *steps, packet.as_str(), source)
        }
        Command::Check(left, right) => check_reply(alloc, left.as_str(), right.as_str(), source),
        Command::CheckApart(name, from, target) => {
            check_apart_reply(alloc, name, from, target, source)
        }
        Command::CheckWaypoint(name, from, middle, target) => {
            check_waypoint_reply(alloc, name, from, middle, target, source)
        }
        _ => reply_to_whole(alloc, command, source),
    }
}

/// What the run means to say to a command that reads nothing, or that reads all of the input before it answers.
fn reply_to_whole<S: Source>(alloc: Global, command: &Command, source: &mut S) -> Reply
    requires within { IsWithinLimits command.now }
    requires whole { reads_in_pieces command.now ≡ false }
    ensures meant { IsMeantTo (Some command.now)
        (use_of S.left S.faults source.old source.new) (answer_in result) }
    ensures unread { reads command.now ≡ false → source.new ≡ source.old }
{
    if !reads_input(command) {
        return reply_to(alloc, command, Vec::new(alloc));
    }
    match read_all(alloc, source, LONGEST) {
        Ok(bytes) => reply_to(alloc, command, bytes),
        Err(error) => Reply::unread(error),
    }
}

/// Whether the command reads the input.
fn reads_input(command: &Command) -> bool
    ensures { result ≡ reads command.now }
{
    match command {
        Command::Gen(_, _) | Command::Job(_, _) => false,
        _ => true,
    }
}

/// What the command answers to the input, where memory doesn't run out.
fn reply_to(alloc: Global, command: &Command, bytes: Vec<u8>) -> Reply
    requires within { IsWithinLimits command.now }
    requires whole { reads_in_pieces command.now ≡ false }
    ensures { IsReplyTo command.now bytes.items result }
{
    match perform(alloc, command, bytes) {
        Ok(said) => Reply::CommandAnswer(said),
        Err(_) => Reply::NoMemory,
    }
}

/// What the command answers to the input.
fn perform(alloc: Global, command: &Command, bytes: Vec<u8>) -> Result<CommandAnswer, AllocError>
    requires within { IsWithinLimits command.now }
    requires whole { reads_in_pieces command.now ≡ false }
    ensures { IfOk result (λ s. IsOutcome command.now bytes.items (outcome_of s)) }
{
    match command {
        Command::Compile(name) => compile_answer(alloc, name.as_str(), bytes),
        Command::Equal(left, right) => equal_answer(alloc, left.as_str(), right.as_str(), bytes),
        Command::Apart(name, from, target) => {
            ask_answer(alloc, &apart_query(name, from, target), bytes)
        }
        Command::Waypoint(name, from, middle, target) => {
            ask_answer(alloc, &waypoint_query(name, from, middle, target), bytes)
        }
        Command::Gen(size, seed) => gen_answer(alloc, *size, *seed),
        Command::Job(size, seed) => job_answer(alloc, *size, *seed),
        Command::Update(old, new, seed, steps, packet) => update_answer(
            alloc,
            old.as_str(),
            new.as_str(),
            *seed,
            *steps,
            packet.as_str(),
            bytes,
        ),
        Command::Compact(name) => compact_answer(alloc, name.as_str(), bytes),
        Command::Virtual(name) => virtual_answer(alloc, name.as_str(), bytes),
        Command::Trace(_, _)
        | Command::Fly(_, _, _)
        | Command::Check(_, _)
        | Command::CheckApart(_, _, _)
        | Command::CheckWaypoint(_, _, _, _) => unreachable!(),
    }
}
