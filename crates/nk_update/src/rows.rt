//! The rows of a switch while plan steps are done.
ghost use Rattle.std.specs.Prelude.{◌≡◌, ◌==◌, ◌&&◌, ◌+◌, ◌++◌, ◌≤◌, nat_le, [], ◌∷◌, if◌then◌else◌, filter, map, All, IfOk, OnOk};
ghost use Rattle.nk_update.specs.Plans as plans;

use nk_field::{Fid, List};
use nk_table::{Row, Target};
use std::alloc::{AllocError, Global};

/// Whether a match asks for a value of the field in all of so many digits.
fn asks(digits: u8, f: Fid, at: &(Fid, u64, u8)) -> bool
    ensures { result ≡ ((at.now.0 == f) && nat_le digits at.now.2) }
{
    let (field, _value, len) = *at;
    field == f && digits <= len
}

/// The value that a row asks of a field in all of so many digits, if it does.
fn asked(digits: u8, f: Fid, row: &Row) -> Option<u64>
    ensures { result ≡ plans.asked_of digits f row.now.matches }
{
    for at in row.matches.as_slice() {
        if asks(digits, f, at) {
            return Some(at.1);
        }
    }
    None
}

/// Whether the tag that a row asks for is not 0.
#[tactic(auto, using(crate::proofs::Tests::tagged_is))]
fn is_tagged(digits: u8, f: Fid, row: &Row) -> bool
    ensures { result ≡ plans.is_tagged_row digits f row.now }
{
    match asked(digits, f, row) {
        Some(n) => n > 0,
        None => false,
    }
}

/// Whether an old row stands after so many plan steps.
fn old_stands(digits: u8, f: Fid, steps: u64, row: &Row) -> bool
    ensures { result ≡ plans.old_stands digits f steps row.now }
{
    if is_tagged(digits, f, row) {
        steps <= 2
    } else {
        steps <= 1
    }
}

/// Whether a new row stands after so many plan steps.
fn new_stands(digits: u8, f: Fid, steps: u64, row: &Row) -> bool
    ensures { result ≡ plans.new_stands digits f steps row.now }
{
    if is_tagged(digits, f, row) {
        1 <= steps
    } else {
        2 <= steps
    }
}

/// The row with its group's number after n groups.
fn numbered_on(row: &Row, n: u64, most: u64) -> Result<Row, AllocError>
    requires named { plans.NamesOneOf most row.now.target }
    requires few { most + n ≤ u64.MAX }
    ensures { IfOk result (λ r. r ≡ plans.plan_row_on n row.now) }
{
    let matches = row.matches.copy()?;
    let target = match &row.target {
        Target::Bucket(bucket) => Target::Bucket(bucket.copy()?),
        Target::Group(number) => Target::Group(*number + n),
        Target::Discard => Target::Discard,
    };
    Ok(Row {
        priority: row.priority,
        matches,
        target,
    })
}

/// Puts a row after others, if it stands.
fn keep(rows: &mut List<Row>, row: &Row, stands: bool) -> Result<(), AllocError>
    ensures { OnOk result (rows.new ≡ rows.old ++ (if stands then row.now ∷ [] else [])) }
{
    if stands {
        rows.push(row.copy()?)?;
    }
    Ok(())
}

/// The old rows that stand after so many plan steps.
#[tactic(auto, using(crate::proofs::Tests::old_more))]
fn standing(
    alloc: Global,
    olds: &[Row],
    digits: u8,
    f: Fid,
    steps: u64,
) -> Result<List<Row>, AllocError>
    ensures { IfOk result (λ rows. rows ≡ filter (plans.old_stands digits f steps) olds.now) }
{
    let mut rows = List::new(alloc);
    for row in olds {
        keep(&mut rows, row, old_stands(digits, f, steps, row))?;
    }
    Ok(rows)
}

/// Puts a new row after others, its group's number after n groups, if it stands.
fn keep_new(
    rows: &mut List<Row>,
    row: &Row,
    stands: bool,
    n: u64,
    most: u64,
) -> Result<(), AllocError>
    requires named { plans.NamesOneOf most row.now.target }
    requires few { most + n ≤ u64.MAX }
    ensures { OnOk result (rows.new
        ≡ rows.old ++ (if stands then plans.plan_row_on n row.now ∷ [] else [])) }
{
    if stands {
        rows.push(numbered_on(row, n, most)?)?;
    }
    Ok(())
}

/// The rows of a switch after so many plan steps, from its old rows, its new ones, and how many groups it has of each.
#[tactic(auto, using(crate::proofs::Tests::new_more))]
pub(crate) fn rows_after(
    alloc: Global,
    olds: &[Row],
    news: &[Row],
    digits: u8,
    f: Fid,
    steps: u64,
    n: u64,
    most: u64,
) -> Result<List<Row>, AllocError>
    requires named { All (λ r. plans.NamesOneOf most r.target) news.now }
    requires few { most + n ≤ u64.MAX }
    ensures { IfOk result (λ rows. rows
        ≡ filter (plans.old_stands digits f steps) olds.now
        ++ map (plans.plan_row_on n) (filter (plans.new_stands digits f steps) news.now)) }
{
    let mut rows = standing(alloc, olds, digits, f, steps)?;
    for row in news {
        keep_new(&mut rows, row, new_stands(digits, f, steps, row), n, most)?;
    }
    Ok(rows)
}
