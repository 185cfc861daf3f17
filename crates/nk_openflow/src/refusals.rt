//! What is refused, and the lines that tell it.
ghost use Rattle.std.specs.Prelude.{◌≡◌, ◌++◌, IfOk, OnOk};
ghost use Rattle.nk_openflow.specs.Refusals as specs;

use crate::numbers::push_number;
use nk_field::{Fid, Fields};
use std::alloc::{AllocError, Global};

/// What is wrong with a word of the command line.
#[derive(Clone, Copy, PartialEq, Eq, Debug)]
pub enum WordFault {
    /// No known match field stands after an `=`.
    NoMatchField,
    /// Packets of the base don't have the match field.
    NotInBase,
    /// A word before has a match field that shares bits with this one.
    MatchFieldTwice,
    /// A word before has the same name.
    FieldTwice,
    /// The switch isn't declared.
    NoSwitch,
    /// No field of this name is declared.
    NoField,
    /// The VLAN is for the tag alone.
    NotTheTag,
    /// The field's largest value is above the match field's.
    FieldTooLarge,
}

impl WordFault {
    /// The words for it.
    pub fn message(self) -> &'static str
        ensures { result.now ≡ specs.word_message self }
    {
        match self {
            WordFault::NoMatchField => "unknown match field",
            WordFault::NotInBase => "match field not in base",
            WordFault::MatchFieldTwice => "match field twice",
            WordFault::FieldTwice => "field twice",
            WordFault::NoSwitch => "unknown switch",
            WordFault::NoField => "unknown field",
            WordFault::NotTheTag => "not the tag",
            WordFault::FieldTooLarge => "field too large",
        }
    }
}

/// Why a part of a table can't be written for Open vSwitch.
#[derive(Clone, Copy, PartialEq, Eq, Debug)]
pub enum RuleFault {
    /// The field is mapped to no match field.
    NotMapped(Fid),
    /// A prefix of the field is matched, and its match field can't be masked.
    NotMaskable(Fid),
    /// The field is set, and its match field can't be.
    NotWritable(Fid),
    /// A prefix of the tag is matched that has 0 and other values.
    TagPrefix,
    /// The tag is set and isn't matched.
    TagUnmatched,
    /// The number of a port isn't from 1 to 65,279.
    Port(u64),
    /// The number of a group is above 4,294,967,040.
    GroupNumber,
}

/// What a fault is in.
#[derive(Clone, Copy, PartialEq, Eq, Debug)]
pub enum Place {
    /// The ports of a switch.
    Ports,
    /// The group of this number.
    Group(u64),
    /// The row of this number in the switch's table, from 1.
    Row(u64),
}

/// `word N: WORDS` with a line feed.
pub fn word_line(alloc: Global, number: u64, fault: WordFault) -> Result<Vec<u8>, AllocError>
    ensures { IfOk result (λ v. v.items ≡ specs.word_fault_line number fault) }
{
    let mut line = Vec::new(alloc);
    line.extend_from_slice(b"word ")?;
    push_number(&mut line, number)?;
    line.extend_from_slice(b": ")?;
    line.extend_from_slice(fault.message().as_bytes())?;
    line.extend_from_slice(b"\n")?;
    Ok(line)
}

/// `line N: WORDS` with a line feed.
pub fn text_line(alloc: Global, number: u64, words: &str) -> Result<Vec<u8>, AllocError>
    ensures { IfOk result (λ v. v.items ≡ specs.text_line number words.now) }
{
    let mut line = Vec::new(alloc);
    line.extend_from_slice(b"line ")?;
    push_number(&mut line, number)?;
    line.extend_from_slice(b": ")?;
    line.extend_from_slice(words.as_bytes())?;
    line.extend_from_slice(b"\n")?;
    Ok(line)
}

/// The line of what can't be written, and where it is.
pub fn rule_line(
    alloc: Global,
    fs: &Fields,
    place: Place,
    fault: RuleFault,
) -> Result<Vec<u8>, AllocError>
    ensures { IfOk result (λ v. v.items ≡ specs.rule_line fs.now place fault) }
{
    let mut line = Vec::new(alloc);
    push_place(&mut line, place)?;
    line.extend_from_slice(b": ")?;
    push_fault(&mut line, fs, fault)?;
    line.extend_from_slice(b"\n")?;
    Ok(line)
}

/// Puts what a fault is in.
fn push_place(line: &mut Vec<u8>, place: Place) -> Result<(), AllocError>
    ensures { OnOk result (line.new.items ≡ line.old.items ++ specs.place_text place) }
{
    match place {
        Place::Ports => line.extend_from_slice(b"ports"),
        Place::Group(number) => {
            line.extend_from_slice(b"group ")?;
            push_number(line, number)
        }
        Place::Row(number) => {
            line.extend_from_slice(b"row ")?;
            push_number(line, number)
        }
    }
}

/// Puts what is wrong.
fn push_fault(line: &mut Vec<u8>, fs: &Fields, fault: RuleFault) -> Result<(), AllocError>
    ensures { OnOk result (line.new.items ≡ line.old.items ++ specs.fault_text fs.now fault) }
{
    match fault {
        RuleFault::NotMapped(f) => push_named(line, fs, f, " has no match field"),
        RuleFault::NotMaskable(f) => push_named(line, fs, f, " can't be masked"),
        RuleFault::NotWritable(f) => push_named(line, fs, f, " can't be set"),
        RuleFault::TagPrefix => line.extend_from_slice(
            b"a prefix of the tag has 0 and other values",
        ),
        RuleFault::TagUnmatched => push_words(line, "the tag is set and not matched"),
        RuleFault::Port(n) => push_port(line, n),
        RuleFault::GroupNumber => push_words(line, "number above 4294967040"),
    }
}

/// Puts a field's name and some words after it.
fn push_named(line: &mut Vec<u8>, fs: &Fields, f: Fid, words: &str) -> Result<(), AllocError>
    ensures { OnOk result (line.new.items ≡ line.old.items ++ specs.named_text fs.now f words.now) }
{
    line.extend_from_slice(fs.name(f).as_bytes())?;
    line.extend_from_slice(words.as_bytes())
}

/// Puts words.
fn push_words(line: &mut Vec<u8>, words: &str) -> Result<(), AllocError>
    ensures { OnOk result (line.new.items ≡ line.old.items ++ words.now) }
{
    line.extend_from_slice(words.as_bytes())
}

/// Puts which port is none of OpenFlow's.
fn push_port(line: &mut Vec<u8>, n: u64) -> Result<(), AllocError>
    ensures { OnOk result (line.new.items ≡ line.old.items ++ specs.port_text n) }
{
    line.extend_from_slice(b"no port of OpenFlow: ")?;
    push_number(line, n)
}
