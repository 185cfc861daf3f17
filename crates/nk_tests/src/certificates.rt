//! A certificate of a text, read in three steps and judged.
ghost use Rattle.std.specs.Prelude.{◌≡◌, ◌≤◌, All, map, true};
ghost use Rattle.nk_cert.specs.Values.{certificate_value};
ghost use Rattle.nk_cert.specs.Verdicts.{HasPredicates};
ghost use Rattle.nk_certtext.specs.Rows.{HasStartRow};
ghost use Rattle.nk_grammar.specs.Certified.{row_value as written_row};
ghost use Rattle.nk_lex.specs.Lex.{largest};

use nk_cert::{CertPart, Certificate, Verdict};
use nk_certtext::read_cert;
use nk_check::check;
use nk_grammar::{File, file_with_certificate};
use nk_lex::{Token, tokens};
use nk_names::Program;
use nk_names::reading::program;
use nk_query::{Query, check_query};
use std::alloc::Global;
use std::test::Fail;

/// Two policies that record each packet and drop it, in two ways, and their certificate: both are at their dups at each packet.
const CERTIFIED: &[u8] = b"let l = dup;drop let r = dup;dup;drop let a = id
certificate
row start : id
row 1 2 : id
row 3 : id
";

/// Whether the rows of the text begin with a start row.
fn begins(file: &File) -> bool
    ensures { result ≡ true → HasStartRow (map written_row file.now.rows) }
{
    match file.rows.as_slice() {
        [first, ..] => first.positions.is_empty(),
        [] => false,
    }
}

/// Whether the certificate shows that both policies do the same.
fn is_valid(alloc: Global, program: &Program, certificate: &Certificate) -> Result<bool, Fail>
    requires { HasPredicates (certificate_value certificate.now) }
{
    Ok(check(alloc, program, "l", "r", certificate)? == Verdict::Valid)
}

/// Whether it is none for a query of the first policy alone: what that records from the start is after its one dup, and no row
/// has that dup alone.
fn is_of_both(alloc: Global, program: &Program, certificate: &Certificate) -> Result<bool, Fail>
    requires { HasPredicates (certificate_value certificate.now) }
{
    let query = Query::Apart {
        name: "l",
        from: "a",
        target: "a",
    };
    let wanted = Verdict::Invalid {
        row: 1,
        part: CertPart::Hop,
    };
    Ok(check_query(alloc, program, &query, certificate)? == wanted)
}

/// Whether both are found of the certificate of a text.
fn are_found(alloc: Global, program: &Program, file: &File) -> Result<bool, Fail>
    requires { HasStartRow (map written_row file.now.rows) }
{
    let certificate = read_cert(alloc, program, file)?;
    Ok(is_valid(alloc, program, &certificate)? && is_of_both(alloc, program, &certificate)?)
}

/// Whether they are found of the tokens of a text.
fn are_found_of(alloc: Global, tokens: &[Token]) -> Result<bool, Fail>
    requires small { All (λ t. t.value ≤ largest) tokens.now }
{
    let file = file_with_certificate(alloc, tokens)?;
    if !begins(&file) {
        return Ok(false);
    }
    let program = program(alloc, &file)?;
    are_found(alloc, &program, &file)
}

/// Whether they are found of the text.
fn are_found_in(alloc: Global, text: &[u8]) -> Result<bool, Fail> {
    let read = tokens(alloc, text)?;
    are_found_of(alloc, &read)
}

#[test]
fn a_certificate_is_judged(rt: HostRuntime) -> Result<(), Fail> {
    assert!(rt; are_found_in(rt.alloc(), CERTIFIED)?);
    Ok(())
}
