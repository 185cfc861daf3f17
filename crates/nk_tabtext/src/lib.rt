//! The text of tables, and the tables of a text.
//!
//! A match is a field, a value and how many of the value's first binary digits count; the value has as many digits as the
//! field's largest value. All of them count where no length is written. A match that can be printed and read back is of a
//! field but the switch, its value is in the field's range, at least one digit counts, and the digits after those that
//! count are zeros.
#![tactic(auto)]

ghost use Rattle.std.specs.Prelude.{◌≡◌, ◌≤◌, ◌++◌, IfOk, OnOk};
ghost use Rattle.std.specs.Fmt.{decimal};
ghost use Rattle.std.specs.List.{flat_map};
ghost use Rattle.nk_tabtext.specs.InOrder.{AreInOrder};
ghost use Rattle.nk_tabtext.specs.Text.{table_bytes, section_text};

mod declaring;
mod filling;
mod head;
mod last_bucket;
mod last_matches;
mod last_row;
mod laws;
mod partial;
mod reading;
mod rules;
mod short;
mod tables;
mod values;
mod writer;

use itoa::Buffer;
pub use laws::{
    a_reader_stops_where_no_text_goes_on, a_text_is_read_token_by_token, printed_tables_are_read,
    read_tables_are_printable, table_texts_declare_as_programs_do,
};
pub use nk_tabgrammar::ReadError;
use nk_table::Tables;
pub use reading::{TableReader, read_tables};
use std::alloc::{AllocError, Global};
pub use writer::TableWriter;

/// The printed text of tables: `tables 2` where some match is a prefix, else `tables 1`; then a line for each declared
/// field, for the tag, each switch and each link, and the table of each switch with its groups and rows. Switches, ports
/// and links ascend, and so do groups, matches and assignments; rows stand in their order. A match whose length isn't all
/// of its field's digits is a prefix here, and has its length after a `/`. The only error is that memory ran out.
pub fn table_text(alloc: Global, t: &Tables) -> Result<Vec<u8>, AllocError>
    requires { AreInOrder t.now }
    ensures { IfOk result (λ v. v.items ≡ table_bytes t.now) }
{
    let mut out = Vec::new(alloc);
    head::head(&mut out, rules::version(t), &t.fields, &t.topo)?;
    sections(&mut out, t, t.topo.switches())?;
    Ok(out)
}

/// The tables of the switches with these numbers. Where both ascend, they are gone through together.
fn sections(out: &mut Vec<u8>, t: &Tables, numbers: &[u16]) -> Result<(), AllocError>
    ensures { OnOk result (out.new.items
        ≡ out.old.items ++ flat_map (λ n. section_text t.now.fields t.now.tables n) numbers.now) }
{
    let mut rest = t.tables.as_slice();
    let mut last = 0;
    for n in numbers {
        rest = rules::following(t.tables.as_slice(), rest, last, *n);
        rules::section(out, &t.fields, rest, *n)?;
        last = *n;
    }
    Ok(())
}

/// Puts a number after a text.
fn number(out: &mut Vec<u8>, n: u64) -> Result<(), AllocError>
    ensures { OnOk result (out.new.items ≡ out.old.items ++ decimal n) }
{
    if n < 10 {
        out.push(b'0' + n as u8)?;
        return Ok(());
    }
    long_number(out, n)
}

/// Puts a number of two digits or more after a text.
#[inline(never)]
fn long_number(out: &mut Vec<u8>, n: u64) -> Result<(), AllocError>
    requires { 10 ≤ n }
    ensures { OnOk result (out.new.items ≡ out.old.items ++ decimal n) }
{
    if n < 100 {
        out.push(b'0' + (n / 10) as u8)?;
        out.push(b'0' + (n % 10) as u8)?;
        return Ok(());
    }
    let mut buffer = Buffer::new();
    short::piece(out, buffer.format(n).as_bytes())
}
