//! Runs a row, and compares what comes with what has to.
use crate::row::{Calls, Fails, Row, Wanted, bytes_of};
use nk::run;
use nk_io::{MemSink, MemSource};
use std::alloc::{AllocError, Global};

/// The statuses of a run that wants memory, of one whose read failed, and of one whose write failed.
const NO_MEMORY: u64 = 7;

const READ_FAULT: u64 = 5;

const WRITE_FAULT: u64 = 6;

/// What became of a row.
#[derive(Drop)]
pub(crate) struct Outcome {
    /// How many runs there were.
    pub(crate) runs: u64,
    /// What came of the first run that didn't come to what it has to.
    pub(crate) wrong: Option<String>,
}

/// Which run of a row it is.
#[derive(Clone, Copy)]
enum Which {
    Whole,
    Read(u64),
    Write(u64),
    Cut(usize),
}

/// What has to come of a run.
#[derive(Clone, Copy)]
enum Due<'a> {
    /// All of it.
    All {
        status: u64,
        out: &'a [u8],
        err: &'a [u8],
        calls: Option<Calls>,
    },
    /// The status, and the shape of an answer.
    Status(u64),
    /// The shape of an answer.
    Answer,
}

/// What came of a run.
struct Came {
    status: u64,
    out: MemSink,
    err: MemSink,
    calls: Calls,
}

impl Drop for Came {
    fn drop(self) {
        let Self {
            status: _,
            out: _,
            err: _,
            calls: _,
        } = self;
    }
}

/// A row that is being tried.
#[derive(Drop)]
struct Trial<'a> {
    alloc: Global,
    row: &'a Row,
    words: &'a [String],
    tried: Outcome,
}

/// Runs the row in each way that it says.
pub(crate) fn tried(alloc: Global, row: &Row) -> Result<Outcome, AllocError> {
    let words = match &row.words {
        Some(words) => words.as_slice(),
        None => &[],
    };
    let nothing = Outcome {
        runs: 0,
        wrong: None,
    };
    let mut trial = Trial {
        alloc,
        row,
        words,
        tried: nothing,
    };
    let due = due_of(&row.whole, row.calls);
    trial.judge(Which::Whole, bytes_of(&row.input), &row.fails, due)?;
    if let (true, Some(calls)) = (row.fails_in_turn, row.calls) {
        trial.reads(calls)?;
        trial.writes(calls)?;
    }
    if row.is_cut {
        trial.cuts()?;
    }
    Ok(trial.tried)
}

impl Trial<'_> {
    /// Each of these calls of the source fails in turn.
    fn reads(&mut self, calls: Calls) -> Result<(), AllocError> {
        let err = b"read fault\n".as_slice();
        for call in 1..=calls.source {
            let mut fails = Fails::new(self.alloc);
            fails.source.push(call)?;
            fails.out.push(1)?;
            let made = Calls {
                source: call,
                out: 0,
                err: (err.len() as u64).div_ceil(self.row.pieces().err.max(1)),
            };
            let due = Due::All {
                status: READ_FAULT,
                out: b"",
                err,
                calls: Some(made),
            };
            let row = self.row;
            self.judge(Which::Read(call), bytes_of(&row.input), &fails, due)?;
        }
        Ok(())
    }

    /// Each of these calls of `out` fails in turn.
    fn writes(&mut self, calls: Calls) -> Result<(), AllocError> {
        let row = self.row;
        let answer = bytes_of(&row.whole.out);
        for call in 1..=calls.out {
            let mut fails = Fails::new(self.alloc);
            fails.out.push(call)?;
            fails.err.push(1)?;
            let before = (call - 1).saturating_mul(row.pieces().out) as usize;
            let made = Calls {
                source: calls.source,
                out: call,
                err: 0,
            };
            let due = Due::All {
                status: WRITE_FAULT,
                out: answer.get(..before).unwrap_or(answer),
                err: b"",
                calls: Some(made),
            };
            self.judge(Which::Write(call), bytes_of(&row.input), &fails, due)?;
        }
        Ok(())
    }

    /// The input is cut off after each byte.
    fn cuts(&mut self) -> Result<(), AllocError> {
        let row = self.row;
        let input = bytes_of(&row.input);
        for length in 0..input.len() {
            let due = due_of_cut(row, length as u64);
            self.judge(Which::Cut(length), &input[..length], &row.fails, due)?;
        }
        Ok(())
    }

    /// Runs the row on this input, with these calls failing, and keeps what came where it isn't what is due. After a run that
    /// was wrong there is none.
    fn judge(
        &mut self,
        which: Which,
        input: &[u8],
        fails: &Fails,
        due: Due,
    ) -> Result<(), AllocError> {
        if self.tried.wrong.is_some() {
            return Ok(());
        }
        let came = self.came_of(input, fails)?;
        self.tried.runs = self.tried.runs.saturating_add(1);
        if !meets(&came, due) {
            self.tried.wrong = Some(text_of(self.alloc, which, &came)?);
        }
        Ok(())
    }

    /// What comes of a run on this input, with these calls failing.
    fn came_of(&self, input: &[u8], fails: &Fails) -> Result<Came, AllocError> {
        let alloc = self.alloc;
        let pieces = self.row.pieces();
        let input = Vec::from_slice(alloc, input)?;
        let source_fails = Vec::from_slice(alloc, fails.source.as_slice())?;
        let mut source = MemSource::new(input, pieces.source.max(1) as usize, source_fails);
        let mut out = sink(alloc, 1 << 20, pieces.out, fails.out.as_slice())?;
        let mut err = sink(alloc, 1 << 16, pieces.err, fails.err.as_slice())?;
        let status = run(alloc, self.words, &mut source, &mut out, &mut err);
        let calls = Calls {
            source: source.calls(),
            out: out.calls(),
            err: err.calls(),
        };
        Ok(Came {
            status: status.code() as u64,
            out,
            err,
            calls,
        })
    }
}

/// A sink with room for so many bytes, of which some calls fail.
fn sink(alloc: Global, room: usize, piece: u64, fails: &[u64]) -> Result<MemSink, AllocError> {
    let fails = Vec::from_slice(alloc, fails)?;
    match MemSink::new(alloc, room, piece.max(1) as usize, fails) {
        Ok(sink) => Ok(sink),
        Err(_) => Err(AllocError),
    }
}

/// What is wanted, as what is due.
fn due_of(wanted: &Wanted, calls: Option<Calls>) -> Due<'_> {
    match wanted.status {
        Some(status) => Due::All {
            status,
            out: bytes_of(&wanted.out),
            err: bytes_of(&wanted.err),
            calls,
        },
        None => Due::Answer,
    }
}

/// What is due of the cut after so many bytes.
fn due_of_cut(row: &Row, length: u64) -> Due<'_> {
    for cut in row.cuts.iter() {
        if cut.lengths.contains(&length) {
            return due_of(cut, None);
        }
    }
    let told = match &row.ends {
        Some(ends) => ends.get(length as usize).copied(),
        None => row.elsewhere,
    };
    match told {
        Some(status) => Due::Status(status),
        None => Due::Answer,
    }
}

/// Whether it came to what is due.
fn meets(came: &Came, due: Due) -> bool {
    match due {
        Due::All {
            status,
            out,
            err,
            calls,
        } => {
            came.status == status
                && came.out.taken() == out
                && came.err.taken() == err
                && calls.is_none_or(|calls| came.calls == calls)
        }
        Due::Status(status) => came.status == status && has_shape(came),
        Due::Answer => has_shape(came),
    }
}

/// Whether it has the shape of an answer: with status 0 or 1 `out` alone took something, with another one `err` alone. Want of
/// memory is none.
fn has_shape(came: &Came) -> bool {
    let out = came.out.taken();
    let err = came.err.taken();
    match came.status {
        0 | 1 => !out.is_empty() && err.is_empty(),
        NO_MEMORY => false,
        _ => out.is_empty() && !err.is_empty(),
    }
}

/// What came, in words.
fn text_of(alloc: Global, which: Which, came: &Came) -> Result<String, AllocError> {
    let which = match which {
        Which::Whole => String::new(alloc),
        Which::Read(call) => format!(in alloc; "with failing read {call} ")?,
        Which::Write(call) => format!(in alloc; "with failing write {call} ")?,
        Which::Cut(length) => format!(in alloc; "cut after {length} bytes ")?,
    };
    let status = came.status;
    let out = shown(alloc, came.out.taken())?;
    let err = shown(alloc, came.err.taken())?;
    let Calls {
        source,
        out: writes,
        err: messages,
    } = came.calls;
    format!(in alloc;
        "{which}came status {status}, out \"{out}\", err \"{err}\", calls {source} {writes} {messages}"
    )
}

/// The first bytes of a text on one line.
fn shown(alloc: Global, bytes: &[u8]) -> Result<String, AllocError> {
    let mut text = String::new(alloc);
    for byte in bytes.iter().take(400) {
        match *byte {
            b'\n' => text.push_str("\\n")?,
            b' '..=b'~' => text.push(*byte as char)?,
            _ => text.push('?')?,
        }
    }
    Ok(text)
}
