//! What is answered to the bytes of a table text.
ghost use Rattle.std.specs.Prelude.{◌≡◌, ◌+◌, ◌<◌, ◌^◌, length, map, IfOk, string_bytes};
ghost use Rattle.nk_tabtext.specs.Values.{tables_of};
ghost use Rattle.nk_table.specs.Rules.{groups_at_switch, rows_of};
ghost use Rattle.nk_reply.specs.Reply.{IsReplyOf, outcome_of};
ghost use Rattle.nk_openflow_commands.specs.Answer as specs;
ghost use Rattle.nk_openflow_commands.specs.Answer.{IsLinesAnswer};

use nk_openflow::{
    Head, Mapping, MappingError, Part, WordFault, first_fault, mapping_of, push_groups, push_rows,
    rule_line, text_line, word_line,
};
use nk_reply::{CommandAnswer, Reply};
use nk_table::{Group, Table, Tables, rows_at};
use nk_tabtext::{ReadError, read_tables};
use std::alloc::{AllocError, Global};

/// What the run means to say of a text within the limit.
pub(crate) fn reply_to_bytes(alloc: Global, head: &Head, words: &[String], bytes: Vec<u8>) -> Reply
    requires room { head.now.count + 1 + length words.now < 2 ^ 64 }
    ensures { IsReplyOf (IsLinesAnswer head.now
        (map (λ w. string_bytes w) words.now) bytes.items) result }
{
    match answer_to_bytes(alloc, head, words, &bytes) {
        Ok(said) => Reply::CommandAnswer(said),
        Err(_) => Reply::NoMemory,
    }
}

/// The answer to it, where memory doesn't run out.
fn answer_to_bytes(
    alloc: Global,
    head: &Head,
    words: &[String],
    bytes: &[u8],
) -> Result<CommandAnswer, AllocError>
    requires room { head.now.count + 1 + length words.now < 2 ^ 64 }
    ensures { IfOk result (λ s.
        IsLinesAnswer head.now (map (λ w. string_bytes w) words.now) bytes.now (outcome_of s)) }
{
    match read_tables(alloc, bytes) {
        Ok(tables) => answer_to_tables(alloc, head, words, &tables),
        Err(ReadError::BadByte { line }) => text_fault(alloc, line, "bad byte"),
        Err(ReadError::NumberTooLarge { line }) => text_fault(alloc, line, "number too large"),
        Err(ReadError::Unexpected { line }) => text_fault(alloc, line, "unexpected"),
        Err(ReadError::TableFault { line }) => text_fault(alloc, line, "table fault"),
        Err(ReadError::NoMemory) => Err(AllocError),
    }
}

/// The fault of a text.
fn text_fault(alloc: Global, line: u64, words: &str) -> Result<CommandAnswer, AllocError>
    ensures { IfOk result (λ s. outcome_of s ≡ specs.text_fault line words.now) }
{
    Ok(CommandAnswer::Text(text_line(alloc, line, words)?))
}

/// A word that is refused.
fn word_refused(alloc: Global, number: u64, fault: WordFault) -> Result<CommandAnswer, AllocError>
    ensures { IfOk result (λ s. outcome_of s ≡ specs.word_refused number fault) }
{
    Ok(CommandAnswer::Refused(word_line(alloc, number, fault)?))
}

/// The answer to tables.
fn answer_to_tables(
    alloc: Global,
    head: &Head,
    words: &[String],
    t: &Tables,
) -> Result<CommandAnswer, AllocError>
    requires room { head.now.count + 1 + length words.now < 2 ^ 64 }
    ensures { IfOk result (λ s. outcome_of s
        ≡ specs.of_tables head.now (map (λ w. string_bytes w) words.now) t.now) }
{
    if !t.topo.is_switch(head.switch) {
        return word_refused(alloc, 1, WordFault::NoSwitch);
    }
    match mapping_of(alloc, &t.fields, head.base, head.count as u64 + 1, words) {
        Ok(mapping) => answer_to_mapping(alloc, head, t, &mapping),
        Err(MappingError::Fault(number, fault)) => word_refused(alloc, number, fault),
        Err(MappingError::NoMemory) => Err(AllocError),
    }
}

/// The answer to tables, by a mapping.
fn answer_to_mapping(
    alloc: Global,
    head: &Head,
    t: &Tables,
    mapping: &Mapping,
) -> Result<CommandAnswer, AllocError>
    ensures { IfOk result (λ s. outcome_of s ≡ specs.of_mapping head.now t.now mapping.now) }
{
    let switch = head.switch;
    let ports = t.topo.ports(switch);
    let groups = groups_at(t.tables.as_slice(), switch);
    let rows = rows_at(t.tables.as_slice(), switch);
    if let Some((place, fault)) = first_fault(&t.fields, mapping, ports, groups, rows) {
        let line = rule_line(alloc, &t.fields, place, fault)?;
        return Ok(CommandAnswer::Refused(line));
    }
    let mut out = Vec::new(alloc);
    match head.part {
        Part::Groups => push_groups(&mut out, mapping, groups)?,
        Part::Flows => push_rows(&mut out, &t.fields, mapping, ports, rows)?,
    }
    Ok(CommandAnswer::Done(out))
}

/// The groups of a switch, none where it has no table.
fn groups_at<'a>(tables: &'a [Table], switch: u16) -> &'a [Group]
    ensures { result.now ≡ groups_at_switch tables.now switch }
{
    for table in tables {
        if table.switch == switch {
            return table.groups.as_slice();
        }
    }
    &[]
}
