//! Rows worked by hand: what `nk_address` answers to words and texts, over sources and sinks in memory.
//!
//! The lines of the files:
//!
//!     # REMARK                nothing
//!     text                    a text begins, which is empty so far; each call takes all its bytes, and none fails
//!     |LINE                   the text goes on with this line and a line feed
//!     .LINE                   the text goes on with this line alone
//!     *TIMES WORDS            the text goes on with these words, so often
//!     calls SOURCE OUT ERR    how many bytes the source, `out` and `err` give or take at most in a call
//!     fails SOURCE OUT ERR    which of their calls fails, counted from 1; 0 is none
//!     $ WORD ..               asks for the answer to these words and this text
//!     % WORD ..               the same of a long text
//!
//! The program prints each line `$ WORD ..`, the status, and in brackets what `out` and `err` took; after `%` how many bytes `out` took.
#![tactic(auto)]

mod asked;

use crate::asked::Asked;
use std::{fs, io};

fn main(rt: HostRuntime) -> io::Result<()> {
    answer(&rt, "addresses.rows")?;
    answer(&rt, "guide.rows")
}

/// Prints the answers to the rows of a file.
fn answer(rt: &HostRuntime, name: &str) -> io::Result<()> {
    let file = fs::read_to_string(rt, name)?;
    let mut asked = Asked::new(rt.alloc());
    for line in file.as_str().lines() {
        if let Some(words) = line.strip_prefix("$") {
            println!(rt; "{line}")?;
            asked.ask(rt, words)?;
        } else if let Some(words) = line.strip_prefix("%") {
            println!(rt; "{line}")?;
            asked.count(rt, words)?;
        } else {
            asked.take(rt.alloc(), line)?;
        }
    }
    Ok(())
}
