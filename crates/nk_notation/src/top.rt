//! The top call.
ghost use Rattle.std.specs.Prelude.{◌≡◌, ◌⊎◌, ◌<◌, None, codes, map, string_bytes};
ghost use Rattle.nk_reply.specs.Reply.{IsDelivered};
ghost use Rattle.nk_reply.specs.Use.{use_of};
ghost use Rattle.nk_notation.specs.Answer.{AnswersTranslation, AnswersBy, IsTranslated, inward_text, outward_text};
ghost use Rattle.nk_notation.specs.Causes.{IsCaused, TellsFailedCalls, TellsWrongWords, TranslatesWhole};
ghost use Rattle.nk_notation.specs.Outward.{named_form};
ghost use Rattle.nk_notation.specs.Words.{direction_in, direction_of};

use crate::inward::Inward;
use crate::outward::{NamedField, Outward};
use crate::pieces::translate;
use crate::telling::{send, tell};
use crate::words::{Asked, read_words};
use nk_io::{Sink, Source};
use nk_reply::Status;
use std::alloc::{AllocError, Global};

/// Translates the text that the source has, as the words ask for: `in` writes the addresses of the text as numbers, and
/// `out FIELD=KIND ..` the values of these fields as addresses. It reads piece by piece, and what comes of a piece is written
/// before the next one is read; no clause says so. Where the run ends early, `out` has the front of the translated text: at a malformed word what
/// stands before the word, and the word as it stood. Then a line on `err` says why. After a write that fails nothing more is written.
pub fn translate_by_words<S: Source, O: Sink, E: Sink>(
    alloc: Global,
    words: &[String],
    source: &mut S,
    out: &mut O,
    err: &mut E,
) -> Status
    // What was read, written and told, and the status.
    ensures answers { AnswersTranslation (direction_of (map (λ w. string_bytes w) words.now))
        (use_of S.left S.faults source.old source.new)
        (use_of O.taken O.faults out.old out.new) (use_of E.taken E.faults err.old err.new) result }
    // When each status comes.
    ensures causes { IsCaused (direction_of (map (λ w. string_bytes w) words.now))
        (use_of S.left S.faults source.old source.new)
        (use_of O.taken O.faults out.old out.new) (use_of E.taken E.faults err.old err.new) result }
    // Where the words ask for a translation, the source tells that it has these bytes left, at most 16,777,216, no call failed and memory
    // sufficed, the status is `Done` or `Text`, as the text has no malformed word or has one.
    ensures succeeds { TranslatesWhole (direction_of (map (λ w. string_bytes w) words.now))
        (use_of S.left S.faults source.old source.new)
        (use_of O.taken O.faults out.old out.new) (use_of E.taken E.faults err.old err.new) result }
    // A fault is told only where a call failed.
    ensures faults { TellsFailedCalls (use_of S.left S.faults source.old source.new)
        (use_of O.taken O.faults out.old out.new) (use_of E.taken E.faults err.old err.new) result }
    // A failed read is never taken for the end of the input, nor for running out of memory: the run says so, or fails at saying so. The
    // source's count of faults was below its last value.
    ensures read_faults { S.faults source.old < S.faults source.new
        → IsDelivered (use_of E.taken E.faults err.old err.new)
        (codes "read fault\n") Status.ReadFault result }
    // A failed write is told by the status.
    ensures write_faults { (O.faults out.old < O.faults out.new) ⊎
        (E.faults err.old < E.faults err.new)
        → result ≡ Status.WriteFault }
    // The status `Usage` comes for words that ask for no translation, where the sink takes it and memory suffices, and for no others.
    ensures usage { TellsWrongWords (direction_of (map (λ w. string_bytes w) words.now)) result }
    // No call was made on the source and on `out` where the words ask for no translation.
    ensures unread { direction_of (map (λ w. string_bytes w) words.now) ≡ None
        → source.new ≡ source.old }
    ensures unwritten { direction_of (map (λ w. string_bytes w) words.now) ≡ None
        → out.new ≡ out.old }
{
    translate_words(alloc, words, source, out, err)
}

/// Translates the text that the source has, as the words ask for. What else `translate_by_words` promises follows from how the
/// run ends.
fn translate_words<S: Source, O: Sink, E: Sink>(
    alloc: Global,
    words: &[String],
    source: &mut S,
    out: &mut O,
    err: &mut E,
) -> Status
    ensures answers { AnswersTranslation (direction_of (map (λ w. string_bytes w) words.now))
        (use_of S.left S.faults source.old source.new)
        (use_of O.taken O.faults out.old out.new) (use_of E.taken E.faults err.old err.new) result }
    ensures unread { direction_of (map (λ w. string_bytes w) words.now) ≡ None
        → source.new ≡ source.old }
    ensures unwritten { direction_of (map (λ w. string_bytes w) words.now) ≡ None
        → out.new ≡ out.old }
{
    match read_words(alloc, words) {
        Ok(asked) => answer(alloc, asked, source, out, err),
        Err(AllocError) => send(err, b"no memory\n", Status::NoMemory),
    }
}

/// Does what the words ask for: a translation, or the line that tells the usage.
#[tactic(auto, unfolding(crate::specs::Words::direction_in))]
fn answer<S: Source, O: Sink, E: Sink>(
    alloc: Global,
    asked: Asked,
    source: &mut S,
    out: &mut O,
    err: &mut E,
) -> Status
    ensures answers { AnswersBy (direction_in asked) (use_of S.left S.faults source.old source.new)
        (use_of O.taken O.faults out.old out.new) (use_of E.taken E.faults err.old err.new) result }
    ensures unread { direction_in asked ≡ None → source.new ≡ source.old }
    ensures unwritten { direction_in asked ≡ None → out.new ≡ out.old }
{
    match asked {
        Asked::In => translate_in(alloc, source, out, err),
        Asked::Out(fields) => translate_out(alloc, fields, source, out, err),
        Asked::Usage => send(
            err,
            b"usage: nk_address in | nk_address out FIELD=KIND ..\n",
            Status::Usage,
        ),
    }
}

/// Writes the addresses of a text as numbers.
fn translate_in<S: Source, O: Sink, E: Sink>(
    alloc: Global,
    source: &mut S,
    out: &mut O,
    err: &mut E,
) -> Status
    ensures { IsTranslated inward_text (use_of S.left S.faults source.old source.new)
        (use_of O.taken O.faults out.old out.new) (use_of E.taken E.faults err.old err.new) result }
{
    let ending = translate(alloc, Inward::new(), source, out);
    tell(ending, err)
}

/// Writes the values of these fields as addresses.
fn translate_out<S: Source, O: Sink, E: Sink>(
    alloc: Global,
    fields: Vec<NamedField>,
    source: &mut S,
    out: &mut O,
    err: &mut E,
) -> Status
    ensures { IsTranslated (outward_text (map named_form fields.items))
        (use_of S.left S.faults source.old source.new)
        (use_of O.taken O.faults out.old out.new) (use_of E.taken E.faults err.old err.new) result }
{
    let ending = translate(alloc, Outward::new(fields), source, out);
    tell(ending, err)
}
