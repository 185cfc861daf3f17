//! Assignments.
ghost use Rattle.std.specs.Prelude.{◌≡◌, ◌≤◌, ℕ, List as Items, [], ◌∷◌, ◌++◌, drop, length, IfOk, OnOk};
ghost use Rattle.nk_field.specs.Act.{applied, act_then, left_without};

use crate::packet::{Fid, Packet};
use crate::short::Short;
use std::alloc::{AllocError, Global};
use std::marker::Model;

/// What is assigned to a packet's fields: pairs of a field and a value, ascending by field, each field once. A contract
/// sees it as the list of its pairs.
#[derive(PartialEq, Eq, PartialOrd, Ord, Hash, Debug)]
pub struct Act {
    sets: Short<(Fid, u64)>,
}

impl Drop for Act {
    fn drop(self) {
        let Self { sets: _ } = self;
    }
}

impl Model for Act {
    ghost use Rattle.std.specs.Prelude.{ℕ, List};
    ghost use Rattle.nk_field.specs.Act.{AscendsFrom};

    ghost Value = { List (ℕ × ℕ) };

    ghost view = { λ a. a.sets };

    ghost invariant = { λ a. AscendsFrom 0 a.sets };

    ghost inverse = { λ d. record { sets = d } };
}

impl Act {
    /// The act that assigns nothing.
    pub fn none(alloc: Global) -> Act
        ensures { result ≡ [] }
    {
        Act {
            sets: Short::new(alloc),
        }
    }

    /// The act that assigns one value to one field. The only error is that memory ran out.
    pub fn one(alloc: Global, f: Fid, n: u64) -> Result<Act, AllocError>
        ensures { IfOk result (λ a. a ≡ (f, n) ∷ []) }
    {
        let mut sets = Short::new(alloc);
        sets.push((f, n))?;
        Ok(Act { sets })
    }

    /// The assignments, ascending by field.
    pub fn as_slice(&self) -> &[(Fid, u64)]
        ensures { result.now ≡ self.now }
    {
        self.sets.as_slice()
    }

    /// A copy of the act. The only error is that memory ran out.
    pub fn copy(&self) -> Result<Act, AllocError>
        ensures { IfOk result (λ a. a ≡ self.now) }
    {
        let sets = self.sets.copy()?;
        Ok(Act { sets })
    }

    /// The act without its assignment to a field; the same act where it has none. The only error is that memory ran
    /// out.
    pub fn without(&self, alloc: Global, f: Fid) -> Result<Act, AllocError>
        ensures { IfOk result (λ a. a ≡ left_without f self.now) }
    {
        let sets = left_without(alloc, self.sets.as_slice(), f)?;
        Ok(Act { sets })
    }

    /// This act followed by `h`: where both assign to a field, the value of `h` stands. The only error is that memory
    /// ran out.
    pub fn then(&self, h: &Act) -> Result<Act, AllocError>
        ensures is { IfOk result (λ a. a ≡ act_then self.now h.now) }
        ensures does { IfOk result (λ a.
            (pk : Items ℕ) → applied a pk ≡ applied h.now (applied self.now pk)) }
    {
        let sets = lay_under(self.sets.alloc(), self.sets.as_slice(), h.sets.as_slice())?;
        Ok(Act { sets })
    }

    /// The packet with the assignments made. Their values aren't checked against the fields' ranges.
    pub fn apply(&self, p: &Packet) -> Packet
        ensures { result ≡ applied self.now p.now }
    {
        let mut to = *p;
        for (f, n) in self.sets.as_slice() {
            to.put(*f, *n);
        }
        to
    }
}

/// The assignments but those of one field.
fn left_without(alloc: Global, sets: &[(Fid, u64)], f: Fid) -> Result<Short<(Fid, u64)>, AllocError>
    ensures { IfOk result (λ r. r ≡ left_without f sets.now) }
{
    let mut left = Short::new(alloc);
    for s in sets {
        if s.0 != f {
            left.push(*s)?;
        }
    }
    Ok(left)
}

/// The assignments of both, where those of the second stand.
fn lay_under(
    alloc: Global,
    a: &[(Fid, u64)],
    b: &[(Fid, u64)],
) -> Result<Short<(Fid, u64)>, AllocError>
    ensures { IfOk result (λ r. r ≡ act_then a.now b.now) }
{
    let mut all = Short::with_capacity(alloc, count_of_both(a, b))?;
    let mut i = 0;
    let mut k = 0;
    while i < a.len() && k < b.len() {
        if a[i].0 < b[k].0 {
            all.push(a[i])?;
            i += 1;
        } else if a[i].0 == b[k].0 {
            all.push(b[k])?;
            i += 1;
            k += 1;
        } else {
            all.push(b[k])?;
            k += 1;
        }
    }
    push_from(&mut all, a, i)?;
    push_from(&mut all, b, k)?;
    Ok(all)
}

/// How many fields the first, the second or both assign, if both ascend by field. An act of more than two assignments gets its room at once
/// by it: for seven bits, a fortieth of the instructions went into room that grew.
fn count_of_both(a: &[(Fid, u64)], b: &[(Fid, u64)]) -> usize {
    let mut count = a.len().saturating_add(b.len());
    let mut i = 0;
    let mut k = 0;
    while i < a.len() && k < b.len() {
        if a[i].0 == b[k].0 {
            count = count.saturating_sub(1);
            i += 1;
            k += 1;
        } else if a[i].0 < b[k].0 {
            i += 1;
        } else {
            k += 1;
        }
    }
    count
}

/// Appends the assignments from this index on.
fn push_from(
    all: &mut Short<(Fid, u64)>,
    sets: &[(Fid, u64)],
    from: usize,
) -> Result<(), AllocError>
    requires { from ≤ length sets.now }
    ensures { OnOk result (all.new ≡ all.old ++ drop from sets.now) }
{
    for i in from..sets.len() {
        all.push(sets[i])?;
    }
    Ok(())
}
