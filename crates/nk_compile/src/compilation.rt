//! The tables of a policy of a program, named or not, and the number of its tag sets.
ghost use Rattle.std.specs.Prelude.{◌≡◌, ℕ, List as Items, IfOk, IfErr};
ghost use Rattle.nk_policy.specs.Tree.{tree_of};
ghost use Rattle.nk_names.specs.declared.Program.{Program};
ghost use Rattle.nk_names.specs.WellFormed.{IsWellFormed};
ghost use Rattle.nk_compile.specs.Answers.{IsCompileResult, IsNoAnswer, IsPolicyAnswer};
ghost use Rattle.nk_compile.specs.Counted.{IsCountAnswer, IsCountedAnswer, IsCountedPolicyAnswer, IsHanded};
ghost use Rattle.nk_compile.specs.Preparing.{IsNumberedByName};

use crate::counted::Counted;
use crate::numbered::{Numbered, number_tags, policy_tables, tables_to};
use crate::refusal::{CompileError, Refusal};
use crate::tagging::tables_over;
use nk_group::{TableList, TableSink};
use nk_names::Program;
use nk_policy::Pol;
use nk_table::Tables;
use nk_topo::Topo;
use std::alloc::{AllocError, Global};

/// The printed tables of a named policy: a table for each declared switch, which together carry the policy.
///
/// A policy is refused for the first reason in the order of `Refusal`; the only other error is that memory ran out.
pub fn compile(alloc: Global, program: &Program, name: &str) -> Result<Tables, CompileError>
    ensures { IsCompileResult program.now name.now result }
{
    match compile_counted(alloc, program, name) {
        Ok(counted) => Ok(counted.tables),
        Err(e) => Err(e),
    }
}

/// The printed tables of a policy over a program's fields and topology. It needs no name there, and may be larger and deeper
/// than a text's. It is refused as by `compile`, but for want of a name.
pub fn compile_policy(alloc: Global, program: &Program, p: &Pol) -> Result<Tables, CompileError>
    requires { IsWellFormed program.now.fields (tree_of p.now) }
    ensures { IsPolicyAnswer program.now (tree_of p.now) result }
{
    match counted_tables(alloc, program, p) {
        Ok(made) => Ok(made.tables),
        Err(error) => Err(error),
    }
}

/// The number of a named policy's tag sets: how many set states it needs after links. It is refused in the same way as by
/// `compile`, and no table is made.
pub fn tag_count(alloc: Global, program: &Program, name: &str) -> Result<u64, CompileError>
    ensures { IsCountAnswer program.now name.now result }
{
    match number(alloc, program, name) {
        Ok(numbered) => Ok(numbered.tags.len() as u64),
        Err(e) => Err(e),
    }
}

/// The printed tables of a named policy, and the number of its tag sets. It is refused in the same way as by `compile`.
pub fn compile_counted(
    alloc: Global,
    program: &Program,
    name: &str,
) -> Result<Counted, CompileError>
    ensures { IsCountedAnswer program.now name.now result }
{
    let numbered = number(alloc, program, name)?;
    let mut tables = TableList::new(alloc);
    let tag_sets = hand_tables(numbered, &program.topo, &mut tables)?;
    let tables = tables_over(&program.fields, &program.topo, tables.into_tables())?;
    Ok(Counted { tables, tag_sets })
}

/// A named policy whose tag sets have their numbers: what is left to do is to print its tables, for which neither the policy nor the
/// program's other policies are needed. It is refused in the same way as by `compile`.
pub fn number(alloc: Global, program: &Program, name: &str) -> Result<Numbered, CompileError>
    ensures ok { IfOk result (IsNumberedByName program.now name.now) }
    ensures error { IfErr result (IsNoAnswer program.now name.now) }
{
    program.laws();
    let Some(named) = program.find(name) else {
        return Err(CompileError::Refused(Refusal::NoPolicy));
    };
    let p = named.written(alloc)?;
    number_tags(alloc, &program.fields, &program.topo, &p)
}

/// Hands the printed tables of a named policy to a sink, row by row, in the order of its program's switches: so neither tables nor
/// rows need be kept. Answers the number of the policy's tag sets. The only error is that memory ran out; the sink may have taken
/// some of the tables and rows then.
pub fn hand_tables<S: TableSink>(
    numbered: Numbered,
    topo: &Topo,
    sink: &mut S,
) -> Result<u64, AllocError>
    requires { (program : Program) × (name : Items ℕ) × (program.topo ≡ topo.now)
        × IsNumberedByName program name numbered }
    ensures { (program : Program) (name : Items ℕ) → program.topo ≡ topo.now
        → IsNumberedByName program name numbered
        → IfOk result (IsHanded program name (λ ts. S.takes sink.old ts sink.new)) }
{
    tables_to(numbered, topo, sink)
}

/// The printed tables of a policy over a program's fields and topology, and the number of its tag sets.
fn counted_tables(alloc: Global, program: &Program, p: &Pol) -> Result<Counted, CompileError>
    requires { IsWellFormed program.now.fields (tree_of p.now) }
    ensures { IsCountedPolicyAnswer program.now (tree_of p.now) result }
{
    program.laws();
    policy_tables(alloc, &program.fields, &program.topo, p)
}
