//! Matches, buckets, groups, rows and sections, each put after a text.
ghost use Rattle.std.specs.Prelude.{◌≡◌, ◌++◌, ◌∷◌, not, codes, OnOk};
ghost use Rattle.std.specs.List.{flat_map, list_any};
ghost use Rattle.nk_table.specs.Rules.{rows_of};
ghost use Rattle.nk_tabtext.specs.Text as text;
ghost use Rattle.nk_tabtext.specs.Text.{is_tag, length_text, match_text, set_text, where_same, matches_text, sets_text, exit_text, bucket_text, target_text, row_text, group_text, rules_text, section_text, version_of, AreTablesFrom};
ghost use Rattle.nk_tabtext.specs.Remembered.{row_front_text};
ghost use Rattle.nk_tabtext.specs.Written.{own_rules_text, switch_line_text};

use crate::{number, short};
use nk_field::{Fid, Fields};
use nk_table::{Bucket, Exit, Group, Row, Table, Tables, Target, digits_at, rows_at};
use std::alloc::AllocError;

/// Whether a field is the tag.
pub(crate) fn is_the_tag(fs: &Fields, f: Fid) -> bool
    ensures { result ≡ is_tag fs.now f }
{
    match fs.tag() {
        Some(g) => f == g,
        None => false,
    }
}

/// Whether all digits of the field count in a match.
fn is_exact(fs: &Fields, m: &(Fid, u64, u8)) -> bool
    ensures { result ≡ text.is_exact fs.now m.now }
{
    let (f, _, length) = *m;
    length == digits_at(fs, f)
}

/// Whether some of these matches is a prefix.
fn some_prefix(fs: &Fields, ms: &[(Fid, u64, u8)]) -> bool
    ensures { result ≡ list_any (λ m. not (text.is_exact fs.now m)) ms.now }
{
    for m in ms {
        if !is_exact(fs, m) {
            return true;
        }
    }
    false
}

/// Whether some match of a row is a prefix, one of which stands by itself between those before it and those after it.
pub(crate) fn some_parted_prefix(
    fs: &Fields,
    before: &[(Fid, u64, u8)],
    between: &(Fid, u64, u8),
    after: &[(Fid, u64, u8)],
) -> bool
    ensures { result ≡ list_any (λ m. not (text.is_exact fs.now m))
        (before.now ++ between.now ∷ after.now) }
{
    some_prefix(fs, before) || !is_exact(fs, between) || some_prefix(fs, after)
}

/// Whether some match of these rows is a prefix.
fn have_prefix(fs: &Fields, rows: &[Row]) -> bool
    ensures { result ≡ text.have_prefix fs.now rows.now }
{
    for row in rows {
        if some_prefix(fs, row.matches.as_slice()) {
            return true;
        }
    }
    false
}

/// Whether some match in the tables of these switches is a prefix. Where switches and tables ascend, both are gone through
/// together.
fn some_table(t: &Tables, numbers: &[u16]) -> bool
    ensures { result ≡ list_any
        (λ n. text.have_prefix t.now.fields (rows_of t.now.tables n)) numbers.now }
{
    let mut rest = t.tables.as_slice();
    let mut last = 0;
    for n in numbers {
        rest = following(t.tables.as_slice(), rest, last, *n);
        if have_prefix(&t.fields, rows_at(rest, *n)) {
            return true;
        }
        last = *n;
    }
    false
}

/// What is left of the tables after those of lesser switches, by what was left at another switch: in it each switch from this
/// one on has the table that it has among all.
pub(crate) fn following<'a>(all: &'a [Table], rest: &'a [Table], last: u16, sw: u16) -> &'a [Table]
    requires { AreTablesFrom last all.now rest.now }
    ensures { AreTablesFrom sw all.now result.now }
{
    if sw < last {
        without_lesser(all, sw)
    } else {
        without_lesser(rest, sw)
    }
}

/// The tables without those of lesser switches at the front.
fn without_lesser<'a>(tables: &'a [Table], sw: u16) -> &'a [Table]
    ensures { AreTablesFrom sw tables.now result.now }
{
    let mut place = 0;
    while place < tables.len() && tables[place].switch < sw {
        place += 1;
    }
    &tables[place..]
}

/// The number of the text's version: 2 where some match is a prefix, else 1.
pub(crate) fn version(t: &Tables) -> u64
    ensures { result ≡ version_of t.now }
{
    if some_table(t, t.topo.switches()) {
        2
    } else {
        1
    }
}

/// How many digits of a match's value count, unless all do.
fn length(out: &mut Vec<u8>, fs: &Fields, m: &(Fid, u64, u8)) -> Result<(), AllocError>
    ensures { OnOk result (out.new.items ≡ out.old.items ++ length_text fs.now m.now) }
{
    if is_exact(fs, m) {
        return Ok(());
    }
    let (_, _, length) = *m;
    out.push(b'/')?;
    number(out, length as u64)
}

/// A match, with a space after it.
pub(crate) fn one_match(
    out: &mut Vec<u8>,
    fs: &Fields,
    m: &(Fid, u64, u8),
) -> Result<(), AllocError>
    ensures { OnOk result (out.new.items ≡ out.old.items ++ match_text fs.now m.now) }
{
    let (f, value, _) = *m;
    short::piece(out, fs.name(f).as_bytes())?;
    out.push(b'=')?;
    number(out, value)?;
    length(out, fs, m)?;
    out.push(b' ')?;
    Ok(())
}

/// An assignment, with a space after it.
fn one_set(out: &mut Vec<u8>, fs: &Fields, f: Fid, n: u64) -> Result<(), AllocError>
    ensures { OnOk result (out.new.items ≡ out.old.items ++ set_text fs.now (f, n)) }
{
    short::piece(out, fs.name(f).as_bytes())?;
    out.push(b':')?;
    out.push(b'=')?;
    number(out, n)?;
    out.push(b' ')?;
    Ok(())
}

/// The matches of the tag, or the other ones.
fn some_matches(
    out: &mut Vec<u8>,
    fs: &Fields,
    ms: &[(Fid, u64, u8)],
    tag: bool,
) -> Result<(), AllocError>
    ensures { OnOk result (out.new.items ≡ out.old.items ++ matches_text fs.now tag ms.now) }
{
    for m in ms {
        match_if(out, fs, m, tag)?;
    }
    Ok(())
}

/// Appends a match of the tag, if `tag` is true, and one of another field, if `tag` is false; else nothing.
fn match_if(out: &mut Vec<u8>, fs: &Fields, m: &(Fid, u64, u8), tag: bool) -> Result<(), AllocError>
    ensures { OnOk result (out.new.items
        ≡ out.old.items ++ where_same (is_tag fs.now m.now.0) tag (match_text fs.now m.now)) }
{
    let (f, _, _) = *m;
    if is_the_tag(fs, f) == tag {
        one_match(out, fs, m)
    } else {
        Ok(())
    }
}

/// The assignments of the tag, or the other ones.
fn some_sets(
    out: &mut Vec<u8>,
    fs: &Fields,
    sets: &[(Fid, u64)],
    tag: bool,
) -> Result<(), AllocError>
    ensures { OnOk result (out.new.items ≡ out.old.items ++ sets_text fs.now tag sets.now) }
{
    for (f, n) in sets {
        set_if(out, fs, *f, *n, tag)?;
    }
    Ok(())
}

/// Appends an assignment to the tag, if `tag` is true, and one to another field, if `tag` is false; else nothing.
fn set_if(out: &mut Vec<u8>, fs: &Fields, f: Fid, n: u64, tag: bool) -> Result<(), AllocError>
    ensures { OnOk result (out.new.items
        ≡ out.old.items ++ where_same (is_tag fs.now f) tag (set_text fs.now (f, n))) }
{
    if is_the_tag(fs, f) == tag {
        one_set(out, fs, f, n)
    } else {
        Ok(())
    }
}

/// A bucket.
pub(crate) fn bucket(out: &mut Vec<u8>, fs: &Fields, b: &Bucket) -> Result<(), AllocError>
    ensures { OnOk result (out.new.items ≡ out.old.items ++ bucket_text fs.now b.now) }
{
    out.push(b'[')?;
    some_sets(out, fs, b.sets.as_slice(), false)?;
    some_sets(out, fs, b.sets.as_slice(), true)?;
    exit(out, &b.exit)?;
    out.push(b']')?;
    Ok(())
}

/// Where a bucket sends a packet.
fn exit(out: &mut Vec<u8>, e: &Exit) -> Result<(), AllocError>
    ensures { OnOk result (out.new.items ≡ out.old.items ++ exit_text e.now) }
{
    match e {
        Exit::Back => {
            out.extend_from_slice(b"out in")?;
            Ok(())
        }
        Exit::Port(n) => {
            short::piece(out, b"out ")?;
            number(out, *n as u64)
        }
    }
}

/// What a row does.
fn target(out: &mut Vec<u8>, fs: &Fields, t: &Target) -> Result<(), AllocError>
    ensures { OnOk result (out.new.items ≡ out.old.items ++ target_text fs.now t.now) }
{
    match t {
        Target::Bucket(b) => bucket(out, fs, b),
        Target::Group(n) => {
            out.extend_from_slice(b"group ")?;
            number(out, *n)
        }
        Target::Discard => {
            out.extend_from_slice(b"drop")?;
            Ok(())
        }
    }
}

/// The line of a row.
fn row(out: &mut Vec<u8>, fs: &Fields, r: &Row) -> Result<(), AllocError>
    ensures { OnOk result (out.new.items ≡ out.old.items ++ row_text fs.now r.now) }
{
    short::piece(out, b"row ")?;
    number(out, r.priority as u64)?;
    short::piece(out, b" : ")?;
    some_matches(out, fs, r.matches.as_slice(), true)?;
    some_matches(out, fs, r.matches.as_slice(), false)?;
    short::piece(out, b"-> ")?;
    target(out, fs, &r.target)?;
    out.push(b'\n')?;
    Ok(())
}

/// The line of a row up to what it does, by the text of its matches.
pub(crate) fn row_front(out: &mut Vec<u8>, priority: u16, matches: &[u8]) -> Result<(), AllocError>
    ensures { OnOk result (out.new.items ≡ out.old.items ++ row_front_text priority matches.now) }
{
    short::piece(out, b"row ")?;
    number(out, priority as u64)?;
    short::piece(out, b" : ")?;
    out.extend_from_slice(matches)?;
    Ok(())
}

/// The buckets of a group, a space before each.
fn spaced(out: &mut Vec<u8>, fs: &Fields, bs: &[Bucket]) -> Result<(), AllocError>
    ensures { OnOk result (out.new.items
        ≡ out.old.items ++ flat_map (λ b. codes " " ++ bucket_text fs.now b) bs.now) }
{
    for b in bs {
        out.push(b' ')?;
        bucket(out, fs, b)?;
    }
    Ok(())
}

/// The line of a group.
fn group(out: &mut Vec<u8>, fs: &Fields, g: &Group) -> Result<(), AllocError>
    ensures { OnOk result (out.new.items ≡ out.old.items ++ group_text fs.now g.now) }
{
    out.extend_from_slice(b"group ")?;
    number(out, g.number)?;
    out.extend_from_slice(b" =")?;
    spaced(out, fs, g.buckets.as_slice())?;
    out.push(b'\n')?;
    Ok(())
}

/// The groups of a switch.
pub(crate) fn groups(out: &mut Vec<u8>, fs: &Fields, gs: &[Group]) -> Result<(), AllocError>
    ensures { OnOk result (out.new.items ≡ out.old.items ++ flat_map (group_text fs.now) gs.now) }
{
    for g in gs {
        group(out, fs, g)?;
    }
    Ok(())
}

/// The rows of a switch.
fn rows(out: &mut Vec<u8>, fs: &Fields, rs: &[Row]) -> Result<(), AllocError>
    ensures { OnOk result (out.new.items ≡ out.old.items ++ flat_map (row_text fs.now) rs.now) }
{
    for r in rs {
        row(out, fs, r)?;
    }
    Ok(())
}

/// The groups and rows of a switch.
fn rules(out: &mut Vec<u8>, fs: &Fields, tables: &[Table], sw: u16) -> Result<(), AllocError>
    ensures { OnOk result (out.new.items ≡ out.old.items ++ rules_text fs.now tables.now sw) }
{
    for table in tables {
        if table.switch == sw {
            return own_rules(out, fs, table);
        }
    }
    Ok(())
}

/// The groups and rows of a table.
fn own_rules(out: &mut Vec<u8>, fs: &Fields, table: &Table) -> Result<(), AllocError>
    ensures { OnOk result (out.new.items ≡ out.old.items ++ own_rules_text fs.now table.now) }
{
    groups(out, fs, table.groups.as_slice())?;
    rows(out, fs, table.rows.as_slice())
}

/// The first line of a switch's table.
pub(crate) fn switch_line(out: &mut Vec<u8>, sw: u16) -> Result<(), AllocError>
    ensures { OnOk result (out.new.items ≡ out.old.items ++ switch_line_text sw) }
{
    out.extend_from_slice(b"table ")?;
    number(out, sw as u64)?;
    out.push(b'\n')?;
    Ok(())
}

/// The table of a switch.
pub(crate) fn section(
    out: &mut Vec<u8>,
    fs: &Fields,
    tables: &[Table],
    sw: u16,
) -> Result<(), AllocError>
    ensures { OnOk result (out.new.items ≡ out.old.items ++ section_text fs.now tables.now sw) }
{
    switch_line(out, sw)?;
    rules(out, fs, tables, sw)
}
