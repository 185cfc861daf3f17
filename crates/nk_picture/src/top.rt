//! The top call.
ghost use Rattle.std.specs.Prelude.{◌≡◌, false, Ok, IfOk, map, string_bytes};
ghost use Rattle.nk_names.specs.ProgramOf.{program_by};
ghost use Rattle.nk_reply.specs.Reply.{answer_in, IsReplyOf, outcome_of};
ghost use Rattle.nk_reply.specs.Sent.{LeavesAlone};
ghost use Rattle.nk_reply.specs.Use.{use_of};
ghost use Rattle.nk_picture.specs.Answer.{Ends, IsMeantWith, IsOutcomeOf, asks_for_text, word_line};
ghost use Rattle.nk_picture.specs.Way as specs;

use crate::drawing::{drawing, word_message};
use crate::way::{Place, Way, way_of};
use nk_input::{ReadText, read_program};
use nk_io::{LONGEST, Sink, Source, read_all};
use nk_reply::{CommandAnswer, Reply, Status, deliver};
use std::alloc::{AllocError, Global};

/// Draws the network of the text that the source has, with the way that the words give: each word is a packet with its switch
/// and its port, as `nk trace` prints it, or `start` or `history`, as `nk equal` puts before packets. The words are looked at
/// before anything is read, and nothing is read where one of them is none of these. The whole answer is made before its first
/// byte is written: on `out` for `Done`, and on `err` for the other statuses. After a write that fails nothing more is written.
pub fn draw<S: Source, O: Sink, E: Sink>(
    alloc: Global,
    words: &[String],
    source: &mut S,
    out: &mut O,
    err: &mut E,
) -> Status
    // An answer was meant for a cause, and then sent, or its sink failed at it.
    ensures ends { Ends (map (λ w. string_bytes w) words.now)
        (use_of S.left S.faults source.old source.new)
        (use_of O.taken O.faults out.old out.new)
        (use_of E.taken E.faults err.old err.new) result }
    // No call was made on the source where a word is neither heading nor packet.
    ensures unread { asks_for_text (specs.way_of_words (map (λ w. string_bytes w) words.now))
        ≡ false
        → source.new ≡ source.old }
    // No call was made on the sink that the answer doesn't go to.
    ensures alone { LeavesAlone result (out.new ≡ out.old) (err.new ≡ err.old) }
{
    let reply = reply_to_words(alloc, words, source);
    deliver(&reply, out, err)
}

/// What the run means to say. Nothing is written yet.
fn reply_to_words<S: Source>(alloc: Global, words: &[String], source: &mut S) -> Reply
    ensures meant { IsMeantWith (specs.way_of_words (map (λ w. string_bytes w) words.now))
        (use_of S.left S.faults source.old source.new) (answer_in result) }
    ensures unread { asks_for_text (specs.way_of_words (map (λ w. string_bytes w) words.now))
        ≡ false
        → source.new ≡ source.old }
{
    match way_of(alloc, words) {
        Ok(Way::Places(places)) => reply_to_way(alloc, &places, source),
        Ok(Way::Bad(number)) => match word_message(alloc, number) {
            Ok(message) => Reply::CommandAnswer(CommandAnswer::Refused(message)),
            Err(AllocError) => Reply::NoMemory,
        },
        Err(AllocError) => Reply::NoMemory,
    }
}

/// What the run means to say to a way, over a source.
fn reply_to_way<S: Source>(alloc: Global, way: &[Place], source: &mut S) -> Reply
    ensures { IsMeantWith (Ok way.now) (use_of S.left S.faults source.old source.new)
        (answer_in result) }
{
    match read_all(alloc, source, LONGEST) {
        Ok(bytes) => reply_to_text(alloc, way, bytes),
        Err(error) => Reply::unread(error),
    }
}

/// What the run means to say to a way and all of a text.
fn reply_to_text(alloc: Global, way: &[Place], bytes: Vec<u8>) -> Reply
    ensures { IsReplyOf (IsOutcomeOf way.now bytes.items) result }
{
    match answer_to_text(alloc, way, bytes) {
        Ok(answer) => Reply::CommandAnswer(answer),
        Err(AllocError) => Reply::NoMemory,
    }
}

/// The drawing of a text's network with a way, or the line of the text's first fault.
fn answer_to_text(alloc: Global, way: &[Place], bytes: Vec<u8>) -> Result<CommandAnswer, AllocError>
    ensures { IfOk result (λ s. IsOutcomeOf way.now bytes.items (outcome_of s)) }
{
    match read_program(alloc, bytes)? {
        ReadText::Program(program) => {
            Ok(CommandAnswer::Done(drawing(alloc, &program.topo, way)?))
        }
        ReadText::Fault(line) => Ok(CommandAnswer::Text(line)),
    }
}
