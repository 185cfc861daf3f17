//! The top call.
ghost use Rattle.std.specs.Prelude.{◌≡◌, ◌≤◌, ◌<◌, ◌+◌, ◌^◌, ℕ, List, Option, Some, false, length, map, string_bytes};
ghost use Rattle.nk_reply.specs.Meant.{IsMeantBy};
ghost use Rattle.nk_reply.specs.Reply as replies;
ghost use Rattle.nk_reply.specs.Sent.{LeavesAlone};
ghost use Rattle.nk_reply.specs.Use.{use_of};
ghost use Rattle.nk_openflow_commands.specs.Answer.{IsLinesAnswer};
ghost use Rattle.nk_openflow_commands.specs.Ends.{Ends, IsMeant, IsMeantByWords, IsFlowsMeantTo, flows_answer_in, asked, asked_by, nothing_done, reads, word_answer};

use crate::answer::reply_to_bytes;
use crate::reply::{FlowsReply, send};
use nk_io::{LONGEST, Sink, Source, read_all};
use nk_openflow::{Head, WordFault, first_word_fault, head_of, word_line};
use nk_reply::{CommandAnswer, Reply, Status};
use std::alloc::Global;

/// Prints the groups or the flows of a switch, of the table text that the source has: `SWITCH groups|flows [BASE] FIELD=OXM ..`.
/// The words are looked at before anything is read, and nothing is read where one of them is at fault. The whole answer is made
/// before its first byte is written: on `out` for `Done`, and on `err` for the other statuses. After a write that fails nothing
/// more is written.
pub fn print_lines<S: Source, O: Sink, E: Sink>(
    alloc: Global,
    words: &[String],
    source: &mut S,
    out: &mut O,
    err: &mut E,
) -> Status
    // An answer was meant for a cause, and then sent, or its sink failed at it.
    ensures ends { Ends (map (λ w. string_bytes w) words.now)
        (use_of S.left S.faults source.old source.new)
        (use_of O.taken O.faults out.old out.new)
        (use_of E.taken E.faults err.old err.new) result }
    // No call was made on the source where the words fix the answer.
    ensures unread { reads (asked (map (λ w. string_bytes w) words.now)) ≡ false
        → source.new ≡ source.old }
    // No call was made on the sink that the answer doesn't go to.
    ensures alone { LeavesAlone result (out.new ≡ out.old) (err.new ≡ err.old) }
{
    let said = said_to_words(alloc, words, source);
    send(&said, out, err)
}

/// What the run means to say. Nothing is written yet.
fn said_to_words<S: Source>(alloc: Global, words: &[String], source: &mut S) -> FlowsReply
    ensures meant { IsMeant (map (λ w. string_bytes w) words.now)
        (use_of S.left S.faults source.old source.new) (flows_answer_in result) }
    ensures unread { reads (asked (map (λ w. string_bytes w) words.now)) ≡ false
        → source.new ≡ source.old }
{
    match head_of(words) {
        Some(head) => FlowsReply::Reply(reply_to_head(alloc, &head, words, source)),
        None => FlowsReply::Usage,
    }
}

/// What the run means to say, where the first words say what is asked for.
fn reply_to_head<S: Source>(alloc: Global, head: &Head, words: &[String], source: &mut S) -> Reply
    requires within { head.now.count ≤ length words.now }
    ensures meant { IsFlowsMeantTo (asked_by (Some head.now) (map (λ w. string_bytes w) words.now))
        (map (λ w. string_bytes w) words.now)
        (use_of S.left S.faults source.old source.new) (replies.answer_in result) }
    ensures unread { reads (asked_by (Some head.now) (map (λ w. string_bytes w) words.now)) ≡ false
        → source.new ≡ source.old }
{
    let rest = &words[head.count..];
    match first_word_fault(head.base, head.count as u64 + 1, rest) {
        Some((number, fault)) => reply_to_fault(alloc, number, fault),
        None => reply_to_source(alloc, head, rest, source),
    }
}

/// What the run means to say, where a word is at fault. Nothing is read.
fn reply_to_fault(alloc: Global, number: u64, fault: WordFault) -> Reply
    ensures { (left : Option (List ℕ)) (faults : ℕ)
        → IsMeantByWords (word_answer number fault) (nothing_done left faults)
        (replies.answer_in result) }
{
    match word_line(alloc, number, fault) {
        Ok(line) => Reply::CommandAnswer(CommandAnswer::Refused(line)),
        Err(_) => Reply::NoMemory,
    }
}

/// What the run means to say over a source, where no word is at fault.
fn reply_to_source<S: Source>(alloc: Global, head: &Head, words: &[String], source: &mut S) -> Reply
    requires room { head.now.count + 1 + length words.now < 2 ^ 64 }
    ensures { IsMeantBy (IsLinesAnswer head.now (map (λ w. string_bytes w) words.now))
        (use_of S.left S.faults source.old source.new) (replies.answer_in result) }
{
    match read_all(alloc, source, LONGEST) {
        Ok(bytes) => reply_to_bytes(alloc, head, words, bytes),
        Err(error) => Reply::unread(error),
    }
}
