//! A predicate of its own over a program of no declaration.
use nk_field::{Fid, List};
use nk_grammar::{Ast, File};
use nk_lex::{Bytes, Ident, Number};
use nk_names::reading::program;
use nk_names::{FaultKind, NamesError, Program, resolve};
use nk_policy::Pol;
use std::alloc::{AllocError, Global};
use std::test::Fail;

/// The program of no declaration.
fn empty(alloc: Global) -> Result<Program, Fail> {
    let file = File {
        decls: List::new(alloc),
        rows: List::new(alloc),
    };
    Ok(program(alloc, &file)?)
}

/// `pt=7`, on line 4.
fn port_is_seven(alloc: Global) -> Result<Ast, AllocError> {
    let field = Ident {
        text: Bytes::of_text(alloc, "pt")?,
        line: 4,
    };
    Ok(Ast::Test(field, Number { value: 7, line: 4 }))
}

/// Whether `pt=7` is resolved.
fn is_resolved(alloc: Global, program: &Program) -> Result<bool, Fail> {
    let test = port_is_seven(alloc)?;
    match resolve(alloc, program, &test, 3)? {
        Pol::Test(field, value) => Ok(field == Fid::PORT && value == 7),
        _ => Ok(false),
    }
}

/// Whether `dup` is refused, on the line of what it stands for.
fn dup_is_refused(alloc: Global, program: &Program) -> bool {
    let fault = NamesError::Fault {
        kind: FaultKind::NotAPredicate,
        line: 3,
    };
    resolve(alloc, program, &Ast::Dup, 3).err() == Some(fault)
}

fn predicates_are_resolved(alloc: Global) -> Result<bool, Fail> {
    let program = empty(alloc)?;
    Ok(is_resolved(alloc, &program)? && dup_is_refused(alloc, &program))
}

#[test]
fn a_predicate_is_resolved(rt: HostRuntime) -> Result<(), Fail> {
    assert!(rt; predicates_are_resolved(rt.alloc())?);
    Ok(())
}
