//! The text of a certificate.
ghost use Rattle.std.specs.Prelude.{◌≡◌, ◌++◌, IfOk, OnOk};
ghost use Rattle.std.specs.List.{flat_map};
ghost use Rattle.nk_policy.specs.Tree.{tree_of};
ghost use Rattle.nk_cert.specs.Values.{certificate_value, held_row_value};
ghost use Rattle.nk_certtext.specs.Text.{position_bytes, predicate_bytes, row_bytes, cert_bytes};

use itoa::Buffer;
use nk_cert::Certificate;
use nk_field::{Fields, List};
use nk_names::Program;
use nk_policy::{Pol, pol_text};
use std::alloc::{AllocError, Global};

/// The text of a certificate: `certificate`, then `row start : ` and its predicate, then `row N N .. : ` and the
/// predicate of each later row, one per line. Fields have their names in the program, and positions stand in the order of
/// the row. The only error is that memory ran out.
pub fn cert_text(alloc: Global, program: &Program, c: &Certificate) -> Result<Vec<u8>, AllocError>
    ensures { IfOk result (λ text. text.items
        ≡ cert_bytes program.now.fields (certificate_value c.now)) }
{
    certificate_text(alloc, &program.fields, c)
}

/// The text of a certificate over these fields: `certificate`, then `row start : ` and its predicate, then `row N N .. : ` and
/// the predicate of each later row, one per line. The only error is that memory ran out.
pub fn certificate_text(
    alloc: Global,
    fields: &Fields,
    c: &Certificate,
) -> Result<Vec<u8>, AllocError>
    ensures { IfOk result (λ text. text.items ≡ cert_bytes fields.now (certificate_value c.now)) }
{
    let mut out = Vec::new(alloc);
    out.extend_from_slice(b"certificate\nrow start")?;
    push_predicate(alloc, &mut out, fields, &c.start)?;
    push_rows(alloc, &mut out, fields, c.rows.as_slice())?;
    Ok(out)
}

/// Appends rows, each with its line feed.
fn push_rows(
    alloc: Global,
    out: &mut Vec<u8>,
    fields: &Fields,
    rows: &[(List<u64>, Pol)],
) -> Result<(), AllocError>
    ensures { OnOk result (out.new.items
        ≡ out.old.items ++ flat_map (λ r. row_bytes fields.now (held_row_value r)) rows.now) }
{
    for row in rows {
        push_row(alloc, out, fields, row)?;
    }
    Ok(())
}

/// Appends a row, with its line feed.
fn push_row(
    alloc: Global,
    out: &mut Vec<u8>,
    fields: &Fields,
    row: &(List<u64>, Pol),
) -> Result<(), AllocError>
    ensures { OnOk result (out.new.items
        ≡ out.old.items ++ row_bytes fields.now (held_row_value row.now)) }
{
    out.extend_from_slice(b"row")?;
    push_positions(out, row.0.as_slice())?;
    push_predicate(alloc, out, fields, &row.1)
}

/// Appends positions, each after a space.
fn push_positions(out: &mut Vec<u8>, positions: &[u64]) -> Result<(), AllocError>
    ensures { OnOk result (out.new.items ≡ out.old.items ++ flat_map position_bytes positions.now) }
{
    for n in positions {
        push_position(out, *n)?;
    }
    Ok(())
}

/// Appends a space and a number.
fn push_position(out: &mut Vec<u8>, n: u64) -> Result<(), AllocError>
    ensures { OnOk result (out.new.items ≡ out.old.items ++ position_bytes n) }
{
    let mut buffer = Buffer::new();
    out.extend_from_slice(b" ")?;
    out.extend_from_slice(buffer.format(n).as_bytes())?;
    Ok(())
}

/// Appends ` : ` and a predicate, with the line feed after it.
fn push_predicate(
    alloc: Global,
    out: &mut Vec<u8>,
    fields: &Fields,
    predicate: &Pol,
) -> Result<(), AllocError>
    ensures { OnOk result (out.new.items
        ≡ out.old.items ++ predicate_bytes fields.now (tree_of predicate.now)) }
{
    let text = pol_text(alloc, fields, predicate)?;
    out.extend_from_slice(b" : ")?;
    out.extend_from_slice(&text)?;
    out.extend_from_slice(b"\n")?;
    Ok(())
}
