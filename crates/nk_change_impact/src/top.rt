//! The top call.
ghost use Rattle.std.specs.Prelude.{◌≡◌, ◌⊎◌, ◌<◌, None, map, string_bytes};
ghost use Rattle.nk_reply.specs.Answer.{read_fault};
ghost use Rattle.nk_reply.specs.Meant.{IsMeantBy};
ghost use Rattle.nk_reply.specs.Reply.{IsReplyOf, answer_in};
ghost use Rattle.nk_reply.specs.Sent.{Delivers, LeavesAlone};
ghost use Rattle.nk_reply.specs.Use.{use_of};
ghost use Rattle.nk_change_impact.specs.Ends.{Ends, IsCaused, IsComplete, TellsUsage, names_in};
ghost use Rattle.nk_change_impact.specs.Impact.{IsImpactAnswer};
ghost use Rattle.nk_change_impact.specs.Succeeding.{Succeeds};

use crate::answer::impact_answer;
use nk_io::{LONGEST, Sink, Source, read_all};
use nk_reply::{Reply, Status, deliver, deliver_text};
use std::alloc::{AllocError, Global};

/// Tells which packets differ between the two policies that the words name, of the text that the source has. Words that are not
/// two are refused before anything is read. Else the source is read to its end, which fails where a call of the source fails or
/// it has more than 16,777,216 bytes. The whole answer is made before its first byte is written: on `out` for the statuses
/// `Done` and `Differs`, on `err` for the others. After a write that fails nothing more is written.
pub fn impact<S: Source, O: Sink, E: Sink>(
    alloc: Global,
    words: &[String],
    source: &mut S,
    out: &mut O,
    err: &mut E,
) -> Status
    // An answer was meant for a cause, and then sent, or its sink failed at it.
    ensures ends { Ends (map (λ w. string_bytes w) words.now)
        (use_of S.left S.faults source.old source.new)
        (use_of O.taken O.faults out.old out.new)
        (use_of E.taken E.faults err.old err.new) result }
    // When each status comes.
    ensures causes { IsCaused (map (λ w. string_bytes w) words.now)
        (use_of S.left S.faults source.old source.new)
        (use_of O.taken O.faults out.old out.new)
        (use_of E.taken E.faults err.old err.new) result }
    // Where nothing failed, the one right answer was written completely, or memory ran out.
    ensures complete { IsComplete (map (λ w. string_bytes w) words.now)
        (use_of S.left S.faults source.old source.new)
        (use_of O.taken O.faults out.old out.new)
        (use_of E.taken E.faults err.old err.new) result }
    // Where nothing failed and memory sufficed, it ends with `Done` exactly where both policies give the same histories, with
    // `Differs` exactly where they don't, with `Text` exactly where the bytes are no program's text, and with `Refused` exactly
    // where one of the names is no policy's.
    ensures succeeds { Succeeds (map (λ w. string_bytes w) words.now)
        (use_of S.left S.faults source.old source.new)
        (use_of O.taken O.faults out.old out.new)
        (use_of E.taken E.faults err.old err.new) result }
    // A failed read is never taken for the end of the input: the run says so, or fails at saying so. The source's count of faults was
    // below its last value.
    ensures read_faults { S.faults source.old < S.faults source.new → Delivers read_fault
        (use_of O.taken O.faults out.old out.new)
        (use_of E.taken E.faults err.old err.new) result }
    // A failed write is told by the status.
    ensures write_faults { (O.faults out.old < O.faults out.new) ⊎
        (E.faults err.old < E.faults err.new)
        → result ≡ Status.WriteFault }
    // The status `Usage` comes for words that are not two, where the sink takes it, and for no others.
    ensures usage { TellsUsage (map (λ w. string_bytes w) words.now) result }
    // No call was made on the source where the words are not two.
    ensures unread { names_in (map (λ w. string_bytes w) words.now) ≡ None
        → source.new ≡ source.old }
    // No call was made on the sink that the answer doesn't go to.
    ensures alone { LeavesAlone result (out.new ≡ out.old) (err.new ≡ err.old) }
{
    answer_words(alloc, words, source, out, err)
}

/// Tells which packets differ between the two policies that the words name. What else `impact` promises follows from how the
/// run ends.
fn answer_words<S: Source, O: Sink, E: Sink>(
    alloc: Global,
    words: &[String],
    source: &mut S,
    out: &mut O,
    err: &mut E,
) -> Status
    ensures ends { Ends (map (λ w. string_bytes w) words.now)
        (use_of S.left S.faults source.old source.new)
        (use_of O.taken O.faults out.old out.new)
        (use_of E.taken E.faults err.old err.new) result }
    ensures unread { names_in (map (λ w. string_bytes w) words.now) ≡ None
        → source.new ≡ source.old }
    ensures alone { LeavesAlone result (out.new ≡ out.old) (err.new ≡ err.old) }
{
    match words {
        [left, right] => {
            let reply = reply_to_names(alloc, left.as_str(), right.as_str(), source);
            deliver(&reply, out, err)
        }
        _ => deliver_text(Status::Usage, b"usage: nk_impact LEFT RIGHT\n", out, err),
    }
}

/// What the run means to say to two names. Nothing is written yet.
fn reply_to_names<S: Source>(alloc: Global, left: &str, right: &str, source: &mut S) -> Reply
    ensures { IsMeantBy (IsImpactAnswer left.now right.now)
        (use_of S.left S.faults source.old source.new) (answer_in result) }
{
    match read_all(alloc, source, LONGEST) {
        Ok(bytes) => reply_to_bytes(alloc, left, right, bytes),
        Err(error) => Reply::unread(error),
    }
}

/// What is answered to all of the input, where memory doesn't run out.
fn reply_to_bytes(alloc: Global, left: &str, right: &str, bytes: Vec<u8>) -> Reply
    ensures { IsReplyOf (IsImpactAnswer left.now right.now bytes.items) result }
{
    match impact_answer(alloc, left, right, bytes) {
        Ok(said) => Reply::CommandAnswer(said),
        Err(AllocError) => Reply::NoMemory,
    }
}
