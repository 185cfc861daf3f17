//! The rows of a certificate, taken one by one.
ghost use Rattle.std.specs.Prelude.{◌≡◌, false, Ok, Some, IfOk, OnErr, OnOk, Result};
ghost use Rattle.nk_policy.specs.Policy.{Policy};
ghost use Rattle.nk_policy.specs.Tree.{tree_of};
ghost use Rattle.nk_names.specs.declared.fault.NamesError.{NamesError};
ghost use Rattle.nk_names.specs.ProgramOf as program;
ghost use Rattle.nk_cert.specs.Values.{certificate_value, row_values};
ghost use Rattle.nk_certtext.specs.InMemory.{MakesKnown, becomes, rows_in};
ghost use Rattle.nk_certtext.specs.Rows.{ascend, certificate_at_end, have_positions, is_misplaced, placed_row, with_next_row, starts, CertReturns, with_predicate};

use crate::error::CertError;
use indexmap::IndexMap;
use nk_cert::Certificate;
use nk_field::List;
use nk_grammar::CertRow;
use nk_names::NamesError;
use nk_policy::Pol;
use std::alloc::{AllocError, Global};

/// Rows by their positions, in the order of the text.
type Rows = IndexMap<List<u64>, Pol>;

/// Whether the numbers ascend strictly.
fn ascend(positions: &[u64]) -> bool
    ensures { result ≡ ascend positions.now }
{
    let mut before: Option<u64> = None;
    for n in positions {
        if let Some(last) = before {
            if *n <= last {
                return false;
            }
        }
        before = Some(*n);
    }
    true
}

/// Whether positions don't ascend, or one of the rows has them.
#[tactic(auto, using(crate::proofs::RowsRead::found))]
fn is_misplaced(rows: &Rows, positions: &List<u64>) -> bool
    ensures { result ≡ is_misplaced (row_values rows.now.entries) positions.now }
{
    let rise = ascend(positions.as_slice());
    let stand = rows.contains_key(positions);
    !rise || stand
}

/// The rows with one more, whose positions none of them has. Where memory ran out, nothing changed.
#[tactic(auto, using(crate::proofs::RowsRead::row_put))]
fn put_row(
    alloc: Global,
    rows: &mut Rows,
    positions: &[u64],
    predicate: Pol,
) -> Result<(), AllocError>
    requires new { have_positions (row_values rows.old.entries) positions.now ≡ false }
    ensures ok { OnOk result (with_predicate (row_values rows.old.entries) positions.now
        (Ok (tree_of predicate)) ≡ Ok (row_values rows.new.entries)) }
    ensures kept { OnErr result (rows.new.entries ≡ rows.old.entries) }
{
    let positions = List::from_vec(Vec::from_slice(alloc, positions)?);
    match rows.insert(positions, predicate) {
        Ok(_) => Ok(()),
        Err(error) => Err(AllocError::from(error)),
    }
}

/// The rows with one more, of this predicate, or its first fault. An `Err` leaves the rows as they were.
fn add_row(
    alloc: Global,
    rows: &mut Rows,
    row: &CertRow,
    predicate: Result<Pol, NamesError>,
) -> Result<(), CertError>
    ensures row { (wanted : Result Policy NamesError)
        → program.NamesReturns tree_of predicate wanted
        → CertReturns (λ _. row_values rows.new.entries) result
        (placed_row (row_values rows.old.entries) row.now.positions row.now.line wanted) }
    ensures kept { OnErr result (rows.new.entries ≡ rows.old.entries) }
{
    if is_misplaced(rows, &row.positions) {
        return Err(CertError::CertFault { line: row.line });
    }
    let predicate = predicate?;
    put_row(alloc, rows, row.positions.as_slice(), predicate)?;
    Ok(())
}

/// The rows as a list, in their order.
fn listed(alloc: Global, rows: Rows) -> Result<Vec<(List<u64>, Pol)>, AllocError>
    ensures { IfOk result (λ v. v.items ≡ rows.entries) }
{
    let mut list = Vec::new(alloc);
    for row in rows {
        list.push(row)?;
    }
    Ok(list)
}

/// What is known of the rows so far.
#[derive(Drop)]
pub(crate) enum RowsRead {
    /// There is none.
    Nothing,
    /// The start row's predicate, and the rows after it.
    Sound(Pol, Rows),
    /// Their first fault.
    Faulty(CertError),
}

/// What is known of a start row with this predicate.
fn begun(alloc: Global, predicate: Result<Pol, NamesError>) -> Result<RowsRead, AllocError>
    ensures { (wanted : Result Policy NamesError) → program.NamesReturns tree_of predicate wanted
        → IfOk result (λ r. rows_in r ≡ Some (starts wanted)) }
{
    match predicate {
        Ok(start) => Ok(RowsRead::Sound(start, IndexMap::new(alloc))),
        Err(NamesError::Fault { kind, line }) => {
            Ok(RowsRead::Faulty(CertError::Fault { kind, line }))
        }
        Err(NamesError::NoMemory) => Err(AllocError),
    }
}

/// What is known after a row that was added: nothing new, or the first fault.
fn after_adding(added: Result<(), CertError>) -> Result<Option<RowsRead>, AllocError>
    ensures { MakesKnown added result }
{
    match added {
        Ok(()) => Ok(None),
        Err(CertError::CertFault { line }) => {
            Ok(Some(RowsRead::Faulty(CertError::CertFault { line })))
        }
        Err(CertError::Fault { kind, line }) => {
            Ok(Some(RowsRead::Faulty(CertError::Fault { kind, line })))
        }
        Err(CertError::NoMemory) => Err(AllocError),
    }
}

impl RowsRead {
    /// One more row, of this predicate: what becomes known in place of what was known, where that is more than one more row
    /// after the others. Where memory ran out, nothing changed.
    fn tell(
        &mut self,
        alloc: Global,
        row: &CertRow,
        predicate: Result<Pol, NamesError>,
    ) -> Result<Option<RowsRead>, AllocError>
        ensures told { (wanted : Result Policy NamesError)
            → program.NamesReturns tree_of predicate wanted
            → IfOk result (λ next. becomes next (rows_in self.new)
            ≡ with_next_row (rows_in self.old) row.now.positions row.now.line wanted) }
        ensures kept { OnErr result (rows_in self.new ≡ rows_in self.old) }
    {
        match self {
            RowsRead::Nothing => Ok(Some(begun(alloc, predicate)?)),
            RowsRead::Sound(_, rows) => after_adding(add_row(alloc, rows, row, predicate)),
            RowsRead::Faulty(_) => Ok(None),
        }
    }

    /// This is known now, where it is something.
    fn put(&mut self, next: Option<RowsRead>)
        ensures { rows_in self.new ≡ becomes next (rows_in self.old) }
    {
        if let Some(known) = next {
            *self = known;
        }
    }

    /// One more row, of this predicate. A fault is no error here: `finish` answers the first one. Of the row the positions come
    /// first: they ascend strictly, and no earlier row has them, else the row is a certificate fault at the line of its word
    /// `row`. Then come the faults of its predicate. Where memory ran out, nothing changed.
    pub(crate) fn add(
        &mut self,
        alloc: Global,
        row: &CertRow,
        predicate: Result<Pol, NamesError>,
    ) -> Result<(), AllocError>
        ensures ok { (wanted : Result Policy NamesError)
            → program.NamesReturns tree_of predicate wanted
            → OnOk result (rows_in self.new
            ≡ with_next_row (rows_in self.old) row.now.positions row.now.line wanted) }
        ensures kept { OnErr result (rows_in self.new ≡ rows_in self.old) }
    {
        let next = self.tell(alloc, row, predicate)?;
        self.put(next);
        Ok(())
    }

    /// The certificate of the rows, or their first fault.
    pub(crate) fn finish(self, alloc: Global) -> Result<Certificate, CertError>
        ensures { CertReturns certificate_value result (certificate_at_end (rows_in self)) }
    {
        match self {
            RowsRead::Nothing => Err(CertError::CertFault { line: 1 }),
            RowsRead::Sound(start, rows) => Ok(Certificate {
                start,
                rows: List::from_vec(listed(alloc, rows)?),
            }),
            RowsRead::Faulty(error) => Err(error),
        }
    }
}
