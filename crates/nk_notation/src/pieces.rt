//! A text that is translated piece by piece.
ghost use Rattle.std.specs.Prelude.{◌≡◌, ◌++◌, [], List, ℕ, OnOk};
ghost use Rattle.nk_notation.specs.Cutting.{lexemes_left};
ghost use Rattle.nk_notation.specs.Lexemes.{lexemes_of};
ghost use Rattle.nk_notation.specs.Run.{TranslationEnds, Finishes, AreBytesSent, Passes};
ghost use Rattle.nk_notation.specs.Translation.{TranslationGoesOn};
ghost use Rattle.nk_reply.specs.Use.{use_of};

use crate::cutter::Cutter;
use crate::notation::Notation;
use nk_io::{PieceError, Sink, Source, Taken, WriteFault, next_piece, write_all};
use nk_number_forms::{Fault, Stop};
use std::alloc::Global;

/// How many bytes are asked for in one call.
const PIECE: usize = 4096;

/// How a translation ends.
#[derive(Clone, Copy)]
pub(crate) enum Ending {
    /// All was read, and all that comes of it was written.
    Done,
    /// A word is malformed. What stands before it was translated and written, and then the word itself.
    Refused(Fault),
    /// A call of the source failed.
    ReadFault,
    /// There was not enough memory.
    NoMemory,
    /// The input has more bytes than the limit.
    TooLong,
    /// A call of the sink failed, and nothing more was written.
    WriteFault,
}

/// Translates the text that the source has, and writes what comes of it as it comes. The memory is that of a piece; no clause says so.
pub(crate) fn translate<N: Notation + Drop, S: Source, O: Sink>(
    alloc: Global,
    notation: N,
    source: &mut S,
    out: &mut O,
) -> Ending
    ensures { TranslationEnds (λ text. N.made notation (lexemes_of text))
        (use_of S.left S.faults source.old source.new)
        (use_of O.taken O.faults out.old out.new) result }
{
    let mut cutter = Cutter::new(alloc, notation);
    translate_by(alloc, &mut cutter, source, out)
}

/// Translates the text that the source has, after what the cutter has taken, and writes what comes of it as it comes.
fn translate_by<N: Notation, S: Source, O: Sink>(
    alloc: Global,
    cutter: &mut Cutter<N>,
    source: &mut S,
    out: &mut O,
) -> Ending
    ensures { TranslationEnds
        (λ text. N.made cutter.old.notation
        (lexemes_left cutter.old.state cutter.old.held.items text))
        (use_of S.left S.faults source.old source.new)
        (use_of O.taken O.faults out.old out.new) result }
{
    let mut written = Vec::new(alloc);
    let mut taken = Taken::new();
    let mut piece = [0u8; PIECE];
    'pieces: loop {
        let count = match next_piece(source, &mut taken, &mut piece) {
            Ok(count) => count,
            Err(PieceError::ReadFault) => return Ending::ReadFault,
            Err(PieceError::TooLong) => return Ending::TooLong,
        };
        if count == 0 {
            return finish(cutter, &mut written, out);
        }
        match pass_piece(cutter, &mut written, out, &piece[..count]) {
            Ok(()) => {}
            Err(ending) => return ending,
        }
    }
}

/// Takes a piece and writes what comes of it.
fn pass_piece<N: Notation, O: Sink>(
    cutter: &mut Cutter<N>,
    written: &mut Vec<u8>,
    out: &mut O,
    piece: &[u8],
) -> Result<(), Ending>
    requires empty { written.old.items ≡ [] }
    ensures empty { OnOk result (written.new.items ≡ []) }
    ensures passes { Passes (λ text.
        N.made cutter.old.notation (lexemes_left cutter.old.state cutter.old.held.items text))
        (λ text. N.made cutter.new.notation
        (lexemes_left cutter.new.state cutter.new.held.items text)) piece.now
        (use_of O.taken O.faults out.old out.new) result }
{
    match take_piece(cutter, written, piece) {
        Ok(()) => write_piece(written, out),
        Err(Stop::NoMemory) => Err(Ending::NoMemory),
        Err(Stop::Refused(fault)) => match write_all(out, written) {
            Ok(()) => Err(Ending::Refused(fault)),
            Err(WriteFault) => Err(Ending::WriteFault),
        },
    }
}

/// Writes what came of a piece.
fn write_piece<O: Sink>(written: &mut Vec<u8>, out: &mut O) -> Result<(), Ending>
    ensures empty { OnOk result (written.new.items ≡ []) }
    ensures sent { AreBytesSent written.old.items (use_of O.taken O.faults out.old out.new) result }
{
    match write_all(out, written) {
        Ok(()) => {
            written.clear();
            Ok(())
        }
        Err(WriteFault) => Err(Ending::WriteFault),
    }
}

/// Takes the bytes of a piece.
fn take_piece<N: Notation>(
    cutter: &mut Cutter<N>,
    written: &mut Vec<u8>,
    piece: &[u8],
) -> Result<(), Stop>
    ensures { (more : List ℕ) → TranslationGoesOn result
        (N.made cutter.old.notation
        (lexemes_left cutter.old.state cutter.old.held.items (piece.now ++ more)))
        (N.made cutter.new.notation
        (lexemes_left cutter.new.state cutter.new.held.items more)) written.old.items
        written.new.items }
{
    let mut at = 0;
    'lexemes: while at < piece.len() {
        match cutter.take_front(written, &piece[at..]) {
            Ok(count) => at += count,
            Err(stop) => return Err(stop),
        }
    }
    Ok(())
}

/// Takes the end of the text, and writes what comes of it.
fn finish<N: Notation, O: Sink>(
    cutter: &mut Cutter<N>,
    written: &mut Vec<u8>,
    out: &mut O,
) -> Ending
    requires empty { written.old.items ≡ [] }
    ensures { Finishes (N.made cutter.old.notation
        (lexemes_left cutter.old.state cutter.old.held.items []))
        (use_of O.taken O.faults out.old out.new) result }
{
    match cutter.end(written) {
        Ok(()) => match write_all(out, written) {
            Ok(()) => Ending::Done,
            Err(WriteFault) => Ending::WriteFault,
        },
        Err(Stop::NoMemory) => Ending::NoMemory,
        Err(Stop::Refused(fault)) => match write_all(out, written) {
            Ok(()) => Ending::Refused(fault),
            Err(WriteFault) => Ending::WriteFault,
        },
    }
}
