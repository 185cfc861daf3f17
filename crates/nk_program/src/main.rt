//! The program: the words, the standard streams, and the top call.
#![tactic(auto)]

use nk::{Status, run};
use nk_io::{Sink, StdSink, StdSource, write_all};
use std::io;
use std::io::ErrorKind;
use std::process::ExitCode;

fn main(rt: HostRuntime) -> ExitCode {
    let mut source = StdSource::new(rt.stdin());
    let mut out = StdSink::new(rt.stdout());
    let mut err = StdSink::new(rt.stderr());
    let status = match given_words(&rt) {
        Ok(words) => run(rt.alloc(), &words, &mut source, &mut out, &mut err),
        Err(error) if error.kind() == ErrorKind::OutOfMemory => no_memory(&mut err),
        Err(_) => run(rt.alloc(), &[], &mut source, &mut out, &mut err),
    };
    ExitCode::from(status.code())
}

/// Says that the words want more memory than there is, as `run` says of all else that does.
fn no_memory<E: Sink>(err: &mut E) -> Status {
    match write_all(err, b"no memory\n") {
        Ok(()) => Status::NoMemory,
        Err(_) => Status::WriteFault,
    }
}

/// The words after the program's name.
fn given_words(rt: &HostRuntime) -> io::Result<Vec<String>> {
    Ok(std::env::args(rt)?.skip(1).collect(rt.alloc())?)
}
