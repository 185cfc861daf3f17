//! The row that acts on a packet.
ghost use Rattle.std.specs.Prelude.{◌≡◌, ◌≤◌, [], filter, slice_index};
ghost use Rattle.std.specs.Option.{option_copied};
ghost use Rattle.nk_prefix.specs.Prefix as prefix;
ghost use Rattle.nk_table.specs.Rules as rules_of;
ghost use Rattle.nk_table.specs.Rules.{row_for, rows_of};

use crate::{Row, Table, Tables};
use nk_field::{Fid, Fields, Packet};

/// The row that acts on a packet at a switch: of the rows that match, the one of the highest priority. None where none
/// matches, or several share the highest priority.
pub fn lookup<'a>(t: &'a Tables, switch: u16, p: &Packet) -> Option<&'a Row>
    ensures { option_copied result ≡ row_for t.now switch p.now }
{
    acting_row(&t.fields, rows_at(t.tables.as_slice(), switch), p)
}

/// The row of these that acts on a packet of the fields: of the rows that match, the one of the highest priority. None
/// where none matches, or several share the highest priority.
pub fn acting_row<'a>(fields: &Fields, rows: &'a [Row], p: &Packet) -> Option<&'a Row>
    ensures { option_copied result
        ≡ rules_of.highest [] (filter (rules_of.agrees fields.now.maxima p.now) rows.now) }
{
    let mut best: Option<&'a Row> = None;
    let mut tied = false;
    for row in rows {
        if agrees(fields, row, p) {
            match best {
                Some(top) if row.priority < top.priority => {}
                Some(top) if row.priority == top.priority => tied = true,
                _ => {
                    best = Some(row);
                    tied = false;
                }
            }
        }
    }
    if tied { None } else { best }
}

/// The rows of a switch, none where it has no table.
pub fn rows_at<'a>(tables: &'a [Table], switch: u16) -> &'a [Row]
    ensures { result.now ≡ rows_of tables.now switch }
{
    for table in tables {
        if table.switch == switch {
            return table.rows.as_slice();
        }
    }
    &[]
}

/// Whether a packet agrees with each of the row's matches.
fn agrees(fields: &Fields, row: &Row, p: &Packet) -> bool
    ensures { result ≡ rules_of.agrees fields.now.maxima p.now row.now }
{
    for at in row.matches.as_slice() {
        if !agrees_at(fields, at, p) {
            return false;
        }
    }
    true
}

/// Whether a packet has the first digits of a match's value. A length above the field's digits counts as all of them.
fn agrees_at(fields: &Fields, at: &(Fid, u64, u8), p: &Packet) -> bool
    ensures { result ≡ rules_of.agrees_at fields.now.maxima p.now at.now }
{
    let (f, value, len) = *at;
    let digits = digits_at(fields, f);
    nk_prefix::agrees(value, len.min(digits), digits, p.get(f))
}

/// How many binary digits the largest value of a field has, 1 to 64; 1 for a number that no field has.
pub fn digits_at(fields: &Fields, f: Fid) -> u8
    ensures is { result ≡ prefix.digits_of (slice_index fields.now.maxima f) }
    ensures small { result ≤ 64 }
{
    if f.place() < fields.len() {
        nk_prefix::digits_of(fields.max(f))
    } else {
        nk_prefix::digits_of(0)
    }
}
