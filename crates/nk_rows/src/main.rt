//! Runs the rows of the files in `data`: what `nk::run` answers words and bytes, over sources and sinks in memory. Prints
//! for each file how many of its rows hold, in how many runs, and of each row that doesn't what came instead.
//!
//! # How rows are written
//!
//! A line that is empty or begins with `#` says nothing. A text is written in lines, one after the other:
//!
//!     |WORDS            the words and a line feed
//!     .WORDS            the words alone
//!     $NAME             the text of that name, from above
//!     *TIMES WORDS      the words, so often, at least once
//!     @FIRST LAST STEP WORDS     the words for each number from FIRST up to LAST, not below it, by steps of at least 1
//!
//! In words `\n`, `\r`, `\t` and `\s` are a line feed, a return, a tab and a space, `\\` is a backslash, and after `@` `\i` is
//! the number and `\p` the one before. Every other line begins with its word:
//!
//!     text NAME         a text follows, by whose name it is used below
//!     row NAME          a row begins; the lines below belong to it
//!     words WORD ..     the words of the command, with a space between them; "" is the word without a letter
//!     in                the text of the input follows; with no such line it is empty
//!     status NUMBER     the status with which it has to end
//!     out               the text that `out` has to take follows; with no such line it is empty
//!     err               the same of `err`
//!     pieces N N N      how many bytes a call of the source, of `out` and of `err` takes at most
//!     source fails N .. the numbers, from 1, of the calls of the source that fail
//!     out fails N ..    the same of `out`
//!     err fails N ..    the same of `err`
//!     calls N N N       how many calls there have to be of the source, of `out` and of `err`
//!     each call fails   it is also run with each of these calls of the source failing, and `out` at its first: that has to end
//!                       with status 5, nothing on `out` and `read fault` on `err`. And with each of these calls of `out` failing,
//!                       and `err` at its first: status 6, the pieces before on `out`, and no call of `err`
//!     cut               it is also run with the input cut off after each byte. With no further word of a cut it has to end in the
//!                       shape of an answer: with status 0 or 1 `out` took something and `err` nothing, with any other but 7, want
//!                       of memory, `err` took something and `out` nothing
//!     else NUMBER       how each cut has to end of which no line `at` speaks: in that shape with this status
//!     ends N*TIMES ..   the same by lengths: of the first cuts, from the empty one on, so many with status N, and so on to the last
//!     at NUMBER ..      so many bytes of the input; `status`, `out` and `err` after it are of these cuts
//!
//! A number is digits alone. Of one row or cut each is said once, with one of `else` and `ends`, and of a length by one `at`; after `at`
//! stand `at`, `status`, `out` and `err` alone. No two texts of a file have a name, and no two rows. A row without `words` or a
//! status is malformed, one with `each call fails` and no `calls`, one that speaks of a cut that isn't made, or, by `ends`, not of
//! each; and so is any other line. Of a file with malformed lines no row is run: each such line is told, and then the line of each
//! malformed row.
//!
//! The rows of wrong.rows are such as don't hold, and the lines of malformed.rows that say so are malformed: both show that it is told.
#![tactic(auto)]

mod reader;
mod row;
mod text;
mod trial;

use crate::reader::row_file_of;
use crate::row::Row;
use crate::trial::tried;
use std::{fs, io};

/// The files, in the order in which they are told. One that isn't named here isn't run.
const FILES: [&str; 22] = [
    "words.rows",
    "texts.rows",
    "refused.rows",
    "tables.rows",
    "ranges.rows",
    "prefixes.rows",
    "limits.rows",
    "networks.rows",
    "traced.rows",
    "flown.rows",
    "updated.rows",
    "compact.rows",
    "virtual.rows",
    "pieces.rows",
    "generated.rows",
    "equal.rows",
    "certificates.rows",
    "queries.rows",
    "faults.rows",
    "guide.rows",
    "wrong.rows",
    "malformed.rows",
];

fn main(rt: HostRuntime) -> io::Result<()> {
    for file in FILES {
        let text = fs::read_to_string(&rt, file)?;
        let said = row_file_of(rt.alloc(), text.as_str())?;
        if said.malformed.is_empty() {
            tell(&rt, file, said.rows.as_slice())?;
        }
        for line in said.malformed {
            println!(rt; "{file}: line {line} is malformed")?;
        }
    }
    Ok(())
}

/// Tries the rows of a file, and prints what came of them.
fn tell(rt: &HostRuntime, file: &str, rows: &[Row]) -> io::Result<()> {
    let mut held = 0u64;
    let mut runs = 0u64;
    for row in rows {
        let tried = tried(rt.alloc(), row)?;
        runs = runs.saturating_add(tried.runs);
        match tried.wrong {
            None => held = held.saturating_add(1),
            Some(came) => {
                let name = row.name.as_str();
                println!(rt; "{file}: {name}: {came}")?;
            }
        }
    }
    let all = rows.len();
    println!(rt; "{file}: {held} of {all} rows hold, in {runs} runs")
}
