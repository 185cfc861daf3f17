//! Numbers, matches and assignments, and what may be wrong with them.
ghost use Rattle.std.specs.Prelude.{◌≡◌, ◌≤◌, ◌-◌, ◌%◌, length, nat_lt, IfOk, OnErr, OnOk, Some};
ghost use Rattle.std.specs.Prelude.{◌==◌};
ghost use Rattle.std.specs.List.{list_any, prefix_len};
ghost use Rattle.nk_tabtext.specs.Progress.{match_set};
ghost use Rattle.nk_tabtext.specs.Values.{line_if, length_fault, length_in, ones_fault, placed_match, unless_at, line_above};

use nk_field::Fid;
use nk_lex::Number;
use nk_tabgrammar::ReadError;
use std::alloc::AllocError;

/// The largest number of a switch and of a port, and the largest priority.
const LARGEST: u64 = 65_535;

/// Ends with a table fault on the line, where something is wrong.
pub(crate) fn refuse_if(wrong: bool, line: u64) -> Result<(), ReadError>
    ensures { result ≡ unless_at (line_if wrong line) tt }
{
    if wrong {
        Err(ReadError::TableFault { line })
    } else {
        Ok(())
    }
}

/// The number of a switch or a port, or a priority.
pub(crate) fn small(n: Number) -> Result<u16, ReadError>
    ensures { result ≡ unless_at (line_above 65535 n) n.value }
{
    if LARGEST < n.value {
        Err(ReadError::TableFault { line: n.line })
    } else {
        Ok(n.value as u16)
    }
}

/// Whether a field is assigned among these.
pub(crate) fn has_field(pairs: &[(Fid, u64)], field: Fid) -> bool
    ensures { result ≡ list_any (λ s. s.0 == field) pairs.now }
{
    pairs.iter().any(|s| s.0 == field)
}

/// Whether a field is matched among these.
pub(crate) fn is_matched(matches: &[(Fid, u64, u8)], field: Fid) -> bool
    ensures { result ≡ list_any (λ s. s.0 == field) matches.now }
{
    matches.iter().any(|m| m.0 == field)
}

/// How many of so many digits count, where a length is written, in a text of a version.
pub(crate) fn length_of(version: u64, digits: u8, length: Number) -> Result<u8, ReadError>
    ensures is { result ≡ unless_at (length_fault version digits (Some length))
        (length_in digits (Some length)) }
    ensures most { IfOk result (λ n. n ≤ digits) }
{
    if version != 2 || length.value == 0 || (digits as u64) < length.value {
        return Err(ReadError::TableFault { line: length.line });
    }
    Ok(length.value as u8)
}

/// After the digits that count a value has zeros.
pub(crate) fn check_zeros(digits: u8, length: u8, n: Number) -> Result<(), ReadError>
    requires some { length ≤ digits }
    requires most { digits ≤ 64 }
    ensures { result ≡ unless_at (ones_fault digits length n) tt }
{
    let rest = (digits - length) as u32;
    refuse_if((n.value as u128) % (1u128 << rest) != 0, n.line)
}

/// How many matches stand in front of those of fields from this one on.
pub(crate) fn place_of(matches: &[(Fid, u64, u8)], field: Fid) -> usize
    ensures is { result ≡ prefix_len (λ x. nat_lt x.0 field) matches.now }
    ensures within { result ≤ length matches.now }
{
    let mut place = 0;
    for (f, _, _) in matches {
        if *f >= field {
            return place;
        }
        place += 1;
    }
    place
}

/// Puts a match after those of lower fields.
pub(crate) fn put(before: &mut Vec<(Fid, u64, u8)>, m: (Fid, u64, u8)) -> Result<(), AllocError>
    ensures ok { OnOk result (before.new.items ≡ placed_match m before.old.items) }
    ensures err { OnErr result (before.new.items ≡ before.old.items) }
{
    let place = place_of(before.as_slice(), m.0);
    before.insert(place, m)?;
    Ok(())
}

/// Puts a match in the place of the first one of its field or a higher one, where there is one.
pub(crate) fn set_match(before: &mut Vec<(Fid, u64, u8)>, m: (Fid, u64, u8))
    ensures { before.new.items ≡ match_set m before.old.items }
{
    let place = place_of(before.as_slice(), m.0);
    if place < before.len() {
        before[place] = m;
    }
}
