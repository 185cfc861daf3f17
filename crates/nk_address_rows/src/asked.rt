//! What is asked: a text, and how the source and the sinks behave.
use nk_io::{CountSink, MemSink, MemSource};
use nk_notation::translate_by_words;
use std::alloc::{AllocError, Global};
use std::io;

/// How many bytes a sink takes.
const ROOM: usize = 65_536;

/// A number for the source, for `out` and for `err`.
#[derive(Clone, Copy)]
struct Three {
    source: u64,
    out: u64,
    err: u64,
}

/// A text, how many bytes a call moves, and which call fails.
pub(crate) struct Asked {
    text: String,
    calls: Three,
    fails: Three,
}

impl Drop for Asked {
    fn drop(self) {
        let Self {
            text: _,
            calls: _,
            fails: _,
        } = self;
    }
}

impl Asked {
    /// An empty text, whole calls and no failures.
    pub(crate) fn new(alloc: Global) -> Self {
        let most = ROOM as u64;
        Asked {
            text: String::new(alloc),
            calls: Three {
                source: most,
                out: most,
                err: most,
            },
            fails: Three {
                source: 0,
                out: 0,
                err: 0,
            },
        }
    }

    /// Takes a line that asks for nothing.
    pub(crate) fn take(&mut self, alloc: Global, line: &str) -> Result<(), AllocError> {
        if line == "text" {
            *self = Asked::new(alloc);
        } else if let Some(more) = line.strip_prefix("|") {
            self.text.push_str(more)?;
            self.text.push('\n')?;
        } else if let Some(more) = line.strip_prefix(".") {
            self.text.push_str(more)?;
        } else if let Some(more) = line.strip_prefix("*") {
            repeat(&mut self.text, more)?;
        } else if let Some(numbers) = line.strip_prefix("calls ") {
            self.calls = three_of(numbers);
        } else if let Some(numbers) = line.strip_prefix("fails ") {
            self.fails = three_of(numbers);
        }
        Ok(())
    }

    /// Asks for the answer to words, and prints it.
    pub(crate) fn ask(&self, rt: &HostRuntime, words: &str) -> io::Result<()> {
        let alloc = rt.alloc();
        let words = listed(alloc, words)?;
        let mut source = self.source(alloc)?;
        let mut out = sink(alloc, self.calls.out, self.fails.out)?;
        let mut err = sink(alloc, self.calls.err, self.fails.err)?;
        let status = translate_by_words(alloc, &words, &mut source, &mut out, &mut err).code();
        let printed = String::from_utf8_lossy(alloc, out.taken())?;
        let told = String::from_utf8_lossy(alloc, err.taken())?;
        println!(rt; "status {status}\n[{printed}][{told}]")
    }

    /// Asks for the answer to words, and prints it with the number of the bytes that `out` took in place of these bytes. No
    /// call of `out` fails.
    pub(crate) fn count(&self, rt: &HostRuntime, words: &str) -> io::Result<()> {
        let alloc = rt.alloc();
        let words = listed(alloc, words)?;
        let mut source = self.source(alloc)?;
        let mut out = CountSink::new();
        let mut err = sink(alloc, self.calls.err, self.fails.err)?;
        let status = translate_by_words(alloc, &words, &mut source, &mut out, &mut err).code();
        let count = out.count();
        let told = String::from_utf8_lossy(alloc, err.taken())?;
        println!(rt; "status {status}\n[{count}][{told}]")
    }

    /// The text as a source.
    fn source(&self, alloc: Global) -> Result<MemSource, AllocError> {
        let bytes = Vec::from_slice(alloc, self.text.as_bytes())?;
        let fails = failing(alloc, self.fails.source)?;
        Ok(MemSource::new(bytes, self.calls.source.max(1) as usize, fails))
    }
}

/// Puts words at the end, as often as the number before them says.
fn repeat(text: &mut String, more: &str) -> Result<(), AllocError> {
    if let Some((times, words)) = more.split_once(' ') {
        let times: u32 = times.parse().unwrap_or(0);
        for _ in 0..times {
            text.push_str(words)?;
        }
    }
    Ok(())
}

/// The numbers between spaces, 0 where one is missing.
fn three_of(numbers: &str) -> Three {
    let mut numbers = numbers.split(' ').map(|n| n.parse().unwrap_or(0));
    Three {
        source: numbers.next().unwrap_or(0),
        out: numbers.next().unwrap_or(0),
        err: numbers.next().unwrap_or(0),
    }
}

/// The words between spaces.
fn listed(alloc: Global, words: &str) -> Result<Vec<String>, AllocError> {
    let mut list = Vec::new(alloc);
    for word in words.split(' ') {
        if !word.is_empty() {
            list.push(String::from_str(alloc, word)?)?;
        }
    }
    Ok(list)
}

/// The calls that fail: this one, or none where it is 0.
fn failing(alloc: Global, call: u64) -> Result<Vec<u64>, AllocError> {
    let mut fails = Vec::new(alloc);
    if call > 0 {
        fails.push(call)?;
    }
    Ok(fails)
}

/// A sink that takes so many bytes a call, and of which this call fails.
fn sink(alloc: Global, piece: u64, fails: u64) -> Result<MemSink, AllocError> {
    let fails = failing(alloc, fails)?;
    match MemSink::new(alloc, ROOM, piece.max(1) as usize, fails) {
        Ok(sink) => Ok(sink),
        Err(_) => Err(AllocError),
    }
}
