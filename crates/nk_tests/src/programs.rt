//! The calls over a program, each once: what they say of the policies of one small network, worked out by hand.
ghost use Rattle.std.specs.Prelude.{◌≤◌, All};
ghost use Rattle.nk_lex.specs.Lex.{largest};

use nk_bisim::{Compared, compare};
use nk_compile::{compile, tag_count};
use nk_grammar::file;
use nk_lex::{Token, tokens};
use nk_names::Program;
use nk_names::reading::program;
use nk_policy::size;
use nk_query::{Answer, Query, ask};
use nk_virtual::physical;
use std::alloc::Global;
use std::test::Fail;

/// The program of the tokens of a text.
fn declared_by(alloc: Global, tokens: &[Token]) -> Result<Program, Fail>
    requires small { All (λ t. t.value ≤ largest) tokens.now }
{
    let tree = file(alloc, tokens)?;
    Ok(program(alloc, &tree)?)
}

/// The program of a text; of a text that is none the test fails with its fault.
pub(crate) fn declared(alloc: Global, text: &[u8]) -> Result<Program, Fail> {
    let read = tokens(alloc, text)?;
    declared_by(alloc, &read)
}

/// Two switches and a link, with a virtual link over it; a policy that needs no tag set, and one that needs one.
const NETWORK: &[u8] =
    b"field vlan 1 tag vlan switch 1 ports 1,2 switch 2 ports 1,2 link 1:2 -> 2:1\n\
fabric f = pt:=2;1:2=>2:1 virtual 1:1 -> 2:1 by f\n\
let stay = id;drop let over = sw=1;pt=1;pt:=2;1:2=>2:1;pt:=2 let none = drop let above = 1:1=>2:1\n\
let here = sw=1 let there = sw=2";

/// Whether a policy needs so many tag sets.
fn needs(alloc: Global, program: &Program, name: &str, count: u64) -> Result<bool, Fail> {
    Ok(tag_count(alloc, program, name)? == count)
}

/// Whether the policy over the link has the two tables of its switches: one row at the first, where it enters, and two at the
/// second, back to port 2 and out there.
fn has_tables(alloc: Global, program: &Program) -> Result<bool, Fail> {
    let made = compile(alloc, program, "over")?;
    let tables = made.tables.as_slice();
    Ok(tables.len() == 2 && tables[0].rows.len() == 1 && tables[1].rows.len() == 2)
}

/// Whether two policies that drop each packet do the same, as a certificate without a later row shows.
fn are_same(alloc: Global, program: &Program) -> Result<bool, Fail> {
    match compare(alloc, program, "stay", "none")? {
        Compared::Related(certificate) => Ok(certificate.rows.is_empty()),
        Compared::Broken(_) => Ok(false),
    }
}

/// Whether a history from switch 1 to switch 2 is found: it records both ends of the link.
fn leads_there(alloc: Global, program: &Program) -> Result<bool, Fail> {
    let query = Query::Apart {
        name: "over",
        from: "here",
        target: "there",
    };
    match ask(alloc, program, &query)? {
        Answer::Breaks(found) => Ok(found.history.records.len() == 2),
        Answer::Holds(_) => Ok(false),
    }
}

/// Whether the physical policy of the virtual link is as large as the ends of it with the fabric between: a sequence of two tests
/// and of the fabric, which is one of two.
fn is_physical(alloc: Global, program: &Program) -> Result<bool, Fail> {
    let policy = physical(alloc, program, "above")?;
    Ok(size(&policy) == 6)
}

/// Whether each call says what was worked out.
fn say_so(alloc: Global, program: &Program) -> Result<bool, Fail> {
    Ok(
        needs(alloc, program, "stay", 0)?
            && needs(alloc, program, "over", 1)?
            && has_tables(alloc, program)?
            && are_same(alloc, program)?
            && leads_there(alloc, program)?
            && is_physical(alloc, program)?,
    )
}

/// Whether that holds of the network.
fn hold(alloc: Global) -> Result<bool, Fail> {
    let program = declared(alloc, NETWORK)?;
    say_so(alloc, &program)
}

#[test]
fn policies_of_a_network(rt: HostRuntime) -> Result<(), Fail> {
    assert!(rt; hold(rt.alloc())?);
    Ok(())
}
