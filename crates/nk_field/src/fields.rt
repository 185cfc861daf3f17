//! The fields of a program.
ghost use Rattle.std.specs.Prelude.{◌≡◌, ◌+◌, ◌≤◌, ◌<◌, ◌↔◌, length, slice_index, slice_index_or, [], IsSome, IsNone, IfSome, IfOk, position, map, string_bytes, OnOk, OnErr};
ghost use Rattle.std.specs.Str.{bytes_eq};
ghost use Rattle.nk_field.specs.Packet.{IsFieldTable, built_in, field_named, with_field};

use crate::packet::Fid;
use std::alloc::{AllocError, Global};
use std::marker::Model;
use thiserror::Error;

/// The most fields that a program has, the switch and the port among them.
pub const MOST_FIELDS: usize = 18;

/// The largest number of a switch and of a port.
const LARGEST_PLACE: u64 = 65_535;

/// Why a field wasn't added.
#[derive(Clone, Copy, PartialEq, Eq, Debug, Error)]
pub enum FieldsError {
    /// Memory ran out.
    #[error("no memory")]
    NoMemory,
    /// A field has the name already; the switch is `sw` and the port `pt`.
    #[error("field twice")]
    FieldTwice,
    /// Sixteen fields are declared already.
    #[error("too many fields")]
    TooManyFields,
}

/// The fields, by index: the switch, the port, then the declared ones. Each has a name of its own and a largest
/// value, and one of the declared ones may be the tag.
#[derive(Debug)]
pub struct Fields {
    names: Vec<String>,
    maxima: Vec<u64>,
    tag: Option<Fid>,
}

impl Drop for Fields {
    fn drop(self) {
        let Self {
            names: _,
            maxima: _,
            tag: _,
        } = self;
    }
}

impl Model for Fields {
    ghost use Rattle.std.specs.Prelude.{map, string_bytes};
    ghost use Rattle.nk_field.specs.Packet.{FieldTable, IsFieldTable};

    ghost Value = { FieldTable };

    ghost view = { λ f. record { names = map string_bytes f.names.items; maxima = f.maxima.items; tag = f.tag } };

    ghost invariant = { λ f.
        IsFieldTable (record { names = map string_bytes f.names.items; maxima = f.maxima.items; tag = f.tag }) };
}

impl Fields {
    /// The fields of a program that declares none: the switch `sw` and the port `pt`, each from 0 to 65,535, and no
    /// tag. The only error is that memory ran out.
    pub fn new(alloc: Global) -> Result<Fields, AllocError>
        ensures { IfOk result (λ f. f ≡ built_in) }
    {
        let mut names = Vec::new(alloc);
        names.push(String::from_str(alloc, "sw")?)?;
        names.push(String::from_str(alloc, "pt")?)?;
        let mut maxima = Vec::new(alloc);
        maxima.push(LARGEST_PLACE)?;
        maxima.push(LARGEST_PLACE)?;
        Ok(Fields {
            names,
            maxima,
            tag: None,
        })
    }

    /// Declares a field with values from 0 to `max`, after the others, and gives its number. It is refused, and
    /// nothing changes, where a field has the name already, or else sixteen are declared already.
    pub fn add(&mut self, name: &str, max: u64) -> Result<Fid, FieldsError>
        ensures place { IfOk result (λ f. f ≡ length self.old.maxima) }
        ensures added { OnOk result (self.new ≡ with_field self.old name.now max) }

        ensures twice { (result ≡ Err FieldsError.FieldTwice) ↔ IsSome
            (field_named self.old name.now) }
        ensures too_many { (result ≡ Err FieldsError.TooManyFields)
            ↔ (IsNone (field_named self.old name.now) × (length self.old.maxima ≡ 18)) }
        ensures kept { OnErr result (self.new ≡ self.old) }
    {
        if self.find(name).is_some() {
            return Err(FieldsError::FieldTwice);
        }
        let place = self.maxima.len();
        if place >= MOST_FIELDS {
            return Err(FieldsError::TooManyFields);
        }
        match self.append(name, max) {
            Ok(()) => Ok(Fid::new(place as u8)),
            Err(AllocError) => Err(FieldsError::NoMemory),
        }
    }

    /// Puts a new field after the others.
    fn append(&mut self, name: &str, max: u64) -> Result<(), AllocError>
        requires new { IsNone (field_named self.old name.now) }
        requires room { length self.old.maxima < 18 }
        ensures ok { OnOk result (self.new ≡ with_field self.old name.now max) }
        ensures err { OnErr result (self.new ≡ self.old) }
    {
        let name = String::from_str(*self.names.allocator(), name)?;
        self.names.reserve(1)?;
        self.maxima.push(max)?;
        self.names.push(name).unwrap();
        Ok(())
    }

    /// The field with the name, if there is one.
    pub fn find(&self, name: &str) -> Option<Fid>
        ensures { result ≡ field_named self.now name.now }
    {
        match place_of(self.names.as_slice(), name) {
            Some(place) => Some(Fid::new(place as u8)),
            None => None,
        }
    }

    /// How many fields there are, the switch and the port among them: 2 to 18.
    pub fn len(&self) -> usize
        ensures { result ≡ length self.now.maxima }
    {
        self.maxima.len()
    }

    /// How many fields are declared, the switch and the port not among them: at most sixteen.
    pub fn declared(&self) -> usize
        ensures count { result + 2 ≡ length self.now.maxima }
        ensures is { IsFieldTable self.now }
    {
        self.maxima.len() - 2
    }

    /// The field that carries the tag, if one does: a declared one.
    pub fn tag(&self) -> Option<Fid>
        ensures { result ≡ self.now.tag }
    {
        self.tag
    }

    /// Makes a declared field the tag. There must be no tag yet.
    pub fn set_tag(&mut self, f: Fid)
        requires declared { 2 ≤ f }
        requires field { f < length self.old.maxima }
        requires none { self.old.tag ≡ None }
        ensures { self.new ≡ record self.old { tag = Some f } }
    {
        self.tag = Some(f);
    }

    /// The name of a field; empty for a number that no field has.
    pub fn name(&self, f: Fid) -> &str
        ensures { result.now ≡ slice_index_or self.now.names f [] }
    {
        match self.names.get(f.place()) {
            Some(name) => name.as_str(),
            None => "",
        }
    }

    /// The largest value of a field.
    pub fn max(&self, f: Fid) -> u64
        requires { f < length self.now.maxima }
        ensures { result ≡ slice_index self.now.maxima f }
    {
        self.maxima[f.place()]
    }

    /// A copy of the fields. The only error is that memory ran out.
    pub fn copy(&self) -> Result<Fields, AllocError>
        ensures { IfOk result (λ f. f ≡ self.now) }
    {
        let alloc = *self.names.allocator();
        let names = copies(alloc, self.names.as_slice())?;
        let maxima = Vec::from_slice(alloc, self.maxima.as_slice())?;
        Ok(Fields {
            names,
            maxima,
            tag: self.tag,
        })
    }
}

/// The first index at which the name stands among the names, if it does.
fn place_of(names: &[String], name: &str) -> Option<usize>
    ensures is { result ≡ position (λ n. bytes_eq name.now (string_bytes n)) names.now }
    ensures within { IfSome result (λ place. place < length names.now) }
{
    names.iter().position(|known| name == known.as_str())
}

/// A copy of each text, in order.
fn copies(alloc: Global, texts: &[String]) -> Result<Vec<String>, AllocError>
    ensures { IfOk result (λ all. map string_bytes all.items ≡ map string_bytes texts.now) }
{
    let mut all = Vec::new(alloc);
    for text in texts {
        all.push(String::from_str(alloc, text.as_str())?)?;
    }
    Ok(all)
}
