//! Which match field each field of tables is mapped to.
ghost use Rattle.std.specs.Prelude.{◌≡◌, ◌<◌, ◌+◌, ◌^◌, length, map, string_bytes};
ghost use Rattle.nk_openflow.specs.Mapping as specs;
ghost use Rattle.nk_openflow.specs.Mapping.{MappingReturns};

use crate::refusals::WordFault;
use crate::words::{match_field_in, name_in};
use crate::{Base, MatchField};
use nk_field::{Fid, Fields, List};
use std::alloc::Global;

/// What every packet is, and the match field that each field is mapped to, one for each word.
#[derive(Drop)]
pub struct Mapping {
    /// What every packet is.
    pub base: Base,
    /// Each a field and its match field.
    pub fields: List<(Fid, MatchField)>,
}

/// Why words give no mapping for some fields.
#[derive(Clone, Copy, PartialEq, Eq, Debug)]
pub enum MappingError {
    /// Memory ran out.
    NoMemory,
    /// The word of this number is at fault.
    Fault(u64, WordFault),
}

/// What the words map, or the first of them that is at fault, where the first of them is number `first`.
pub fn mapping_of(
    alloc: Global,
    fs: &Fields,
    base: Base,
    first: u64,
    words: &[String],
) -> Result<Mapping, MappingError>
    requires { first + length words.now < 2 ^ 64 }
    ensures { MappingReturns result
        (specs.mapping_of fs.now base first (map (λ w. string_bytes w) words.now)) }
{
    let mut fields = List::new(alloc);
    for (i, word) in words.iter().enumerate() {
        match mapped_by(fs, word.as_str()) {
            Ok(pair) => {
                if fields.push(pair).is_err() {
                    return Err(MappingError::NoMemory);
                }
            }
            Err(fault) => return Err(MappingError::Fault(first + i as u64, fault)),
        }
    }
    Ok(Mapping { base, fields })
}

/// The field and the match field of a word.
fn mapped_by(fs: &Fields, word: &str) -> Result<(Fid, MatchField), WordFault>
    ensures { result ≡ specs.mapped_by fs.now word.now }
{
    let Some(field) = match_field_in(word) else {
        return Err(WordFault::NoMatchField);
    };
    match fs.find(name_in(word)) {
        Some(f) => pair_of(fs, f, field),
        None => Err(WordFault::NoField),
    }
}

/// The two, if the match field can carry the field.
fn pair_of(fs: &Fields, f: Fid, field: MatchField) -> Result<(Fid, MatchField), WordFault>
    ensures { result ≡ specs.mapped_pair fs.now f field }
{
    if f.place() < 2 || fs.len() <= f.place() {
        return Err(WordFault::NoField);
    }
    if matches!(field, MatchField::VlanVid) && fs.tag() != Some(f) {
        return Err(WordFault::NotTheTag);
    }
    if field.largest() < fs.max(f) {
        return Err(WordFault::FieldTooLarge);
    }
    Ok((f, field))
}

/// The match field that a field is mapped to.
pub fn mapped_at(mapping: &Mapping, f: Fid) -> Option<MatchField>
    ensures { result ≡ specs.mapped_at mapping.now.fields f }
{
    for (g, field) in mapping.fields.as_slice() {
        if *g == f {
            return Some(*field);
        }
    }
    None
}
