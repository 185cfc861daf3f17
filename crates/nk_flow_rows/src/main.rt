//! Rows worked by hand: what `nk_flows` answers to words and table texts, over sources and sinks in memory.
//!
//! A line `text` of the file begins a table text. A line `$ WORDS` asks for the answer to these words and that text: the program prints the
//! line, the status, and what `out` and `err` took.
#![tactic(auto)]

use nk_io::{MemSink, MemSource};
use nk_openflow_commands::print_lines;
use std::alloc::{AllocError, Global};
use std::{fs, io};

/// How many bytes a sink takes.
const ROOM: usize = 65_536;

fn main(rt: HostRuntime) -> io::Result<()> {
    let file = fs::read_to_string(&rt, "flows.rows")?;
    let mut text = String::new(rt.alloc());
    for line in file.as_str().lines() {
        if let Some(words) = line.strip_prefix("$ ") {
            ask(&rt, words, text.as_str())?;
        } else if line == "text" {
            text = String::new(rt.alloc());
        } else {
            text.push_str(line)?;
            text.push('\n')?;
        }
    }
    Ok(())
}

/// Asks for the answer to words and a text, and prints it after the line that asks.
fn ask(rt: &HostRuntime, words: &str, text: &str) -> io::Result<()> {
    println!(rt; "$ {words}")?;
    let alloc = rt.alloc();
    let words = listed(alloc, words)?;
    let bytes = Vec::from_slice(alloc, text.as_bytes())?;
    let mut source = MemSource::new(bytes, ROOM, Vec::new(alloc));
    let mut out = sink(alloc)?;
    let mut err = sink(alloc)?;
    let status = print_lines(alloc, &words, &mut source, &mut out, &mut err).code();
    let printed = String::from_utf8_lossy(alloc, out.taken())?;
    let told = String::from_utf8_lossy(alloc, err.taken())?;
    print!(rt; "status {status}\n{printed}{told}")
}

/// The words between spaces.
fn listed(alloc: Global, words: &str) -> Result<Vec<String>, AllocError> {
    let mut list = Vec::new(alloc);
    for word in words.split(' ') {
        list.push(String::from_str(alloc, word)?)?;
    }
    Ok(list)
}

/// A sink with room, none of whose calls fails.
fn sink(alloc: Global) -> Result<MemSink, AllocError> {
    match MemSink::new(alloc, ROOM, ROOM, Vec::new(alloc)) {
        Ok(sink) => Ok(sink),
        Err(_) => Err(AllocError),
    }
}
