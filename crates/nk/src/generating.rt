//! The answers of `gen SIZE SEED` and `job SIZE SEED`.
ghost use Rattle.std.specs.Prelude.{◌≡◌, ◌≤◌, ◌++◌, IfOk, OnOk, List, ℕ, codes, decimal, length};
ghost use Rattle.std.specs.List.{sum_by};
ghost use Rattle.nk_names.specs.ProgramOf.{program_by};
ghost use Rattle.nk_names.specs.ProgramValue.{IsProgram};
ghost use Rattle.nk_verify_commands.specs.Comparing.{ToCompared};
ghost use Rattle.nk_compile_commands.specs.Compiling.{ToProgram};
ghost use Rattle.nk_input.specs.Declarable.{CanBeDeclared};
ghost use Rattle.nk.specs.Generating.{CountsRows, CountsTables, IsGenAnswer, IsJobAnswer, IsJobOver, rows_line, tables_line};
ghost use Rattle.nk.specs.JobSteps.{IsJobStep};
ghost use Rattle.nk_input.specs.ProgramText.{Declares};
ghost use Rattle.nk_reply.specs.Reply.{outcome_of};

use itoa::Buffer;
use nk_bisim::{CompareError, Compared, compare};
use nk_certtext::laws::certificates_of_policies_are_read;
use nk_compile::{CompileError, Counted, compile_counted};
use nk_compile_commands::laws::compiled_tables_are_printable;
use nk_compile_commands::refusal_message;
use nk_gen::generate;
use nk_input::{ReadText, read_program};
use nk_names::Program;
use nk_reply::CommandAnswer;
use nk_reply::messages::no_policy_message;
use nk_table::Table;
use nk_tabtext::printed_tables_are_read;
use nk_verify_commands::difference_message;
use std::alloc::{AllocError, Global};

/// A step of the job.
#[derive(Drop)]
pub enum Step {
    /// The step is done: the line of what is counted.
    Line(Vec<u8>),
    /// The step isn't done, and the job ends with this answer of its command.
    Ends(CommandAnswer),
}

/// The text of a generated program.
pub(crate) fn gen_answer(alloc: Global, size: u64, seed: u64) -> Result<CommandAnswer, AllocError>
    requires sizes { (2 ≤ size) × (size ≤ 1000) }
    requires seeds { (1 ≤ seed) × (seed ≤ 2147483646) }
    ensures { IfOk result (λ s. IsGenAnswer size seed (outcome_of s)) }
{
    Ok(CommandAnswer::Done(generate(alloc, size, seed)?))
}

/// What is counted of a generated program's policies. The text is made once and read once, and no table or certificate is printed.
pub(crate) fn job_answer(alloc: Global, size: u64, seed: u64) -> Result<CommandAnswer, AllocError>
    requires sizes { (2 ≤ size) × (size ≤ 1000) }
    requires seeds { (1 ≤ seed) × (seed ≤ 2147483646) }
    ensures { IfOk result (λ s. IsJobAnswer size seed (outcome_of s)) }
{
    let text = generate(alloc, size, seed)?;
    job_over(alloc, text)
}

/// What the job answers over the bytes of a text.
fn job_over(alloc: Global, bytes: Vec<u8>) -> Result<CommandAnswer, AllocError>
    ensures { IfOk result (λ s. IsJobOver bytes.items (outcome_of s)) }
{
    match read_program(alloc, bytes)? {
        ReadText::Program(program) => job_of_program(alloc, &program),
        ReadText::Fault(line) => Ok(CommandAnswer::Text(line)),
    }
}

/// What the job answers over a program: the first answer that isn't that its command is done, or else the lines of all three
/// commands.
fn job_of_program(alloc: Global, program: &Program) -> Result<CommandAnswer, AllocError>
    requires is { IsProgram program.now.fields program.now.topo program.now.lets }
    requires declared { CanBeDeclared (program_by program.now) }
    ensures { IfOk result (λ s. (bytes : List ℕ) → Declares bytes (program_by program.now)
        → IsJobOver bytes (outcome_of s)) }
{
    let mut out = match count_tables(alloc, program, "go")? {
        Step::Line(line) => line,
        Step::Ends(answer) => return Ok(answer),
    };
    let cast = match count_tables(alloc, program, "cast")? {
        Step::Line(line) => line,
        Step::Ends(answer) => return Ok(answer),
    };
    let equal = match count_rows(alloc, program, "go", "same")? {
        Step::Line(line) => line,
        Step::Ends(answer) => return Ok(answer),
    };
    out.extend_from_slice(&cast)?;
    out.extend_from_slice(&equal)?;
    Ok(CommandAnswer::Done(out))
}

/// The line of a policy's tables, or the answer of `compile` where it isn't done.
fn count_tables(alloc: Global, program: &Program, name: &str) -> Result<Step, AllocError>
    requires is { IsProgram program.now.fields program.now.topo program.now.lets }
    requires declared { CanBeDeclared (program_by program.now) }
    ensures { IfOk result (IsJobStep (ToProgram (program_by program.now) name.now)
        (CountsTables program.now name.now)) }
{
    // These two are laws: the tables that compiling gives can be printed, and printed tables are read back.
    compiled_tables_are_printable();
    printed_tables_are_read();
    match compile_counted(alloc, program, name) {
        Ok(counted) => Ok(Step::Line(tables_message(alloc, name, &counted)?)),
        Err(CompileError::Refused(reason)) => {
            let message = refusal_message(alloc, &program.fields, &reason)?;
            Ok(Step::Ends(CommandAnswer::Refused(message)))
        }
        Err(CompileError::NoMemory) => Err(AllocError),
    }
}

/// The line of the rows of two policies' certificate, or the answer of `equal` where it isn't done.
fn count_rows(alloc: Global, program: &Program, left: &str, right: &str) -> Result<Step, AllocError>
    requires is { IsProgram program.now.fields program.now.topo program.now.lets }
    ensures { IfOk result (IsJobStep (ToCompared (program_by program.now) left.now right.now)
        (CountsRows program.now left.now right.now)) }
{
    // This is a law: what is printed for two policies is read back.
    certificates_of_policies_are_read();
    match compare(alloc, program, left, right) {
        Ok(Compared::Related(certificate)) => {
            Ok(Step::Line(rows_message(alloc, certificate.rows.len())?))
        }
        Ok(Compared::Broken(found)) => {
            let message = difference_message(alloc, &program.fields, &found)?;
            Ok(Step::Ends(CommandAnswer::Differs(message)))
        }
        Err(CompareError::NoPolicy) => Ok(Step::Ends(CommandAnswer::Refused(no_policy_message(
            alloc,
        )?))),
        Err(CompareError::NoMemory) => Err(AllocError),
    }
}

/// The line of what is counted of a policy's tables.
fn tables_message(alloc: Global, name: &str, counted: &Counted) -> Result<Vec<u8>, AllocError>
    ensures { IfOk result (λ v. v.items
        ≡ tables_line name.now counted.now.tag_sets counted.now.tables.tables) }
{
    let tables = counted.tables.tables.as_slice();
    let mut line = Vec::from_slice(alloc, name.as_bytes())?;
    push_counts(&mut line, counted.tag_sets, tables)?;
    Ok(line)
}

/// Appends the numbers of tag sets, of rows and of groups, each after its word, and a line feed.
fn push_counts(line: &mut Vec<u8>, tag_sets: u64, tables: &[Table]) -> Result<(), AllocError>
    ensures { OnOk result (line.new.items ≡ line.old.items ++ codes " tags " ++ decimal tag_sets
        ++ codes " rows " ++ decimal (sum_by (λ t. length t.rows) tables.now)
        ++ codes " groups " ++ decimal (sum_by (λ t. length t.groups) tables.now) ++ codes "\n") }
{
    push_count(line, b" tags ", tag_sets as u128)?;
    push_count(line, b" rows ", rows_in(tables))?;
    push_count(line, b" groups ", groups_in(tables))?;
    line.extend_from_slice(b"\n")
}

/// Appends a word and a number.
fn push_count(line: &mut Vec<u8>, word: &[u8], count: u128) -> Result<(), AllocError>
    ensures { OnOk result (line.new.items ≡ line.old.items ++ word.now ++ decimal count) }
{
    let mut buffer = Buffer::new();
    line.extend_from_slice(word)?;
    line.extend_from_slice(buffer.format(count).as_bytes())
}

/// The line of a certificate with so many rows after the start row.
fn rows_message(alloc: Global, rows: usize) -> Result<Vec<u8>, AllocError>
    ensures { IfOk result (λ v. v.items ≡ rows_line rows) }
{
    let mut line = Vec::new(alloc);
    push_count(&mut line, b"equal rows ", 1 + rows as u128)?;
    line.extend_from_slice(b"\n")?;
    Ok(line)
}

/// How many rows the tables have together.
fn rows_in(tables: &[Table]) -> u128
    ensures { result ≡ sum_by (λ t. length t.rows) tables.now }
{
    let mut count: u128 = 0;
    for table in tables {
        count += table.rows.len() as u128;
    }
    count
}

/// How many groups the tables have together.
fn groups_in(tables: &[Table]) -> u128
    ensures { result ≡ sum_by (λ t. length t.groups) tables.now }
{
    let mut count: u128 = 0;
    for table in tables {
        count += table.groups.len() as u128;
    }
    count
}
