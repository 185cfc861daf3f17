//! What is said of differences, of queries that are refused or broken, and of rows that fail.
ghost use Rattle.std.specs.Prelude.{◌≡◌, IfOk};
ghost use Rattle.nk_bisim.specs.Answers.{whose};
ghost use Rattle.nk_cert.specs.Values.{row_part};
ghost use Rattle.nk_witness.specs.Finds.{found_of};
ghost use Rattle.nk_verify_commands.specs.Asking.{broken_lines};
ghost use Rattle.nk_verify_commands.specs.Checking.{invalid_line, part_word};
ghost use Rattle.nk_verify_commands.specs.Comparing.{difference_lines, side_line};
ghost use Rattle.nk_verify_commands.specs.Messages.{TellsQuery};

use itoa::Buffer;
use nk_cert::CertPart;
use nk_field::Fields;
use nk_query::QueryError;
use nk_reply::messages::{found_message, no_policy_message, push_found, too_large_message};
use nk_witness::{Found, Side};
use std::alloc::{AllocError, Global};

/// What is said of a history that one of two policies alone has.
pub fn difference_message(
    alloc: Global,
    fields: &Fields,
    found: &Found,
) -> Result<Vec<u8>, AllocError>
    ensures { IfOk result (λ v. v.items
        ≡ difference_lines fields.now (whose found.now.side) (found_of found.now)) }
{
    let mut message = Vec::from_slice(alloc, b"different\n")?;
    message.extend_from_slice(side_words(found.side))?;
    push_found(alloc, &mut message, fields, &found.start, &found.history)?;
    Ok(message)
}

/// What is said of a history that breaks a query.
pub(crate) fn broken_message(
    alloc: Global,
    fields: &Fields,
    found: &Found,
) -> Result<Vec<u8>, AllocError>
    ensures { IfOk result (λ v. v.items ≡ broken_lines fields.now (found_of found.now)) }
{
    found_message(alloc, b"broken\n", fields, &found.start, &found.history)
}

/// The message for a query that is refused. There is none for running out of memory.
pub(crate) fn query_message(alloc: Global, cause: QueryError) -> Result<Vec<u8>, AllocError>
    ensures { IfOk result (λ v. TellsQuery cause v.items) }
{
    match cause {
        QueryError::NoPolicy => no_policy_message(alloc),
        QueryError::NotAPredicate => Vec::from_slice(alloc, b"refused C14: not a predicate\n"),
        QueryError::TooLarge => too_large_message(alloc),
        QueryError::NoMemory => Err(AllocError),
    }
}

/// Which policy alone has a history.
fn side_words(side: Side) -> &'static [u8]
    ensures { result.now ≡ side_line (whose side) }
{
    match side {
        Side::Left => b"left alone\n",
        Side::Right => b"right alone\n",
    }
}

/// The message for a certificate's row that fails, with its line feed.
pub(crate) fn invalid_message(
    alloc: Global,
    row: u64,
    part: CertPart,
) -> Result<Vec<u8>, AllocError>
    ensures { IfOk result (λ v. v.items ≡ invalid_line row (row_part part)) }
{
    let mut buffer = Buffer::new();
    let mut message = Vec::new(alloc);
    message.extend_from_slice(b"invalid row ")?;
    message.extend_from_slice(buffer.format(row).as_bytes())?;
    message.extend_from_slice(b": ")?;
    message.extend_from_slice(word_of(part).as_bytes())?;
    message.extend_from_slice(b"\n")?;
    Ok(message)
}

/// The word for a part of a row.
fn word_of(part: CertPart) -> &'static str
    ensures { result.now ≡ part_word (row_part part) }
{
    match part {
        CertPart::Position => "position",
        CertPart::Start => "start",
        CertPart::Finals => "finals",
        CertPart::Hop => "hop",
    }
}
