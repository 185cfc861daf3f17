//! Runs each example in the folder `data`, draws some of them, translates addresses, and says whether the answers are the texts beside it.
//!
//! What is run stands in the file `runs` there, a line for each answer, with the file that has it, the program, its words, and
//! the file that is its input:
//!
//!     ANSWER: nk WORD .. < INPUT
//!     ANSWER: nk_draw WORD .. < INPUT
//!     ANSWER: nk_impact WORD .. < INPUT
//!     ANSWER: nk_address WORD .. < INPUT
#![tactic(auto)]

use nk::{Status, run};
use nk_change_impact::impact;
use nk_io::{MemSink, PlainSource};
use nk_notation::translate_by_words;
use nk_picture::draw;
use std::alloc::{AllocError, Global};
use std::{fs, io};

fn main(rt: HostRuntime) -> io::Result<()> {
    let runs = fs::read_to_string(&rt, "runs")?;
    for line in runs.as_str().lines() {
        tell(&rt, line)?;
    }
    Ok(())
}

/// Runs what a line says, and prints whether the answer is the one that was wanted.
fn tell(rt: &HostRuntime, line: &str) -> io::Result<()> {
    let Some((answer, rest)) = line.split_once(": ") else {
        return println!(rt; "no run: {line}");
    };
    match rest.split_once(" < ") {
        Some((command, input)) => tell_run(rt, answer, command, input),
        None => println!(rt; "no run: {line}"),
    }
}

/// Runs a command on a file, and prints whether its answer is what another file has.
fn tell_run(rt: &HostRuntime, answer: &str, command: &str, input: &str) -> io::Result<()> {
    let text = fs::read(rt, input)?;
    let wanted = fs::read(rt, answer)?;
    let same = answers(rt.alloc(), command, text, &wanted)?;
    println!(rt; "{answer}: {}", said_of(same))
}

/// Whether an answer is the one that was wanted, in words.
fn said_of(same: bool) -> &'static str {
    if same { "as written" } else { "another answer" }
}

/// Whether a command gives this answer, on one sink, or a message on the other.
fn answers(
    alloc: Global,
    command: &str,
    input: Vec<u8>,
    wanted: &[u8],
) -> Result<bool, AllocError> {
    let mut source = PlainSource::new(input);
    let (program, words) = parted(command);
    let words = owned(alloc, words)?;
    let mut out = sink(alloc)?;
    let mut err = sink(alloc)?;
    let status = ended(alloc, program, &words, &mut source, &mut out, &mut err);
    let is_answer = status == Status::Done || status == Status::Differs;
    Ok(is_wanted(is_answer, &out, &err, wanted))
}

/// The first word of a command, and the others.
fn parted(command: &str) -> (&str, &str) {
    match command.split_once(' ') {
        Some(parts) => parts,
        None => (command, ""),
    }
}

/// How the program of this name ends with these words. Any other program than the four is a wrong use.
fn ended(
    alloc: Global,
    program: &str,
    words: &[String],
    source: &mut PlainSource,
    out: &mut MemSink,
    err: &mut MemSink,
) -> Status {
    if program == "nk" {
        run(alloc, words, source, out, err)
    } else if program == "nk_draw" {
        draw(alloc, words, source, out, err)
    } else if program == "nk_impact" {
        impact(alloc, words, source, out, err)
    } else if program == "nk_address" {
        translate_by_words(alloc, words, source, out, err)
    } else {
        Status::Usage
    }
}

/// Whether the sink of answers took what was wanted and that of messages nothing, or the other way round.
fn is_wanted(is_answer: bool, out: &MemSink, err: &MemSink, wanted: &[u8]) -> bool {
    if is_answer {
        out.taken() == wanted && err.taken().is_empty()
    } else {
        err.taken() == wanted && out.taken().is_empty()
    }
}

/// The words, each in a text of its own.
fn owned(alloc: Global, given: &str) -> Result<Vec<String>, AllocError> {
    let mut words = Vec::new(alloc);
    if given.is_empty() {
        return Ok(words);
    }
    for word in given.split(' ') {
        words.push(String::from_str(alloc, word)?)?;
    }
    Ok(words)
}

/// A sink with room for an answer.
fn sink(alloc: Global) -> Result<MemSink, AllocError> {
    match MemSink::new(alloc, 1 << 16, 1 << 16, Vec::new(alloc)) {
        Ok(sink) => Ok(sink),
        Err(_) => Err(AllocError),
    }
}
