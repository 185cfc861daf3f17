//! Numbers in words, and numbers put after a text.
ghost use Rattle.std.specs.Prelude.{◌≡◌, ◌≤◌, ◌++◌, decimal, IfSome, OnOk};
ghost use Rattle.nk_field.specs.Texts.{number_upto as number_of_digits};
ghost use Rattle.nk_openflow.specs.MatchFields as specs;

use itoa::Buffer;
use std::alloc::AllocError;

/// The number that digits alone write, if it is at most `max`.
pub(crate) fn number_upto(max: u64, digits: &str) -> Option<u64>
    ensures is { result ≡ number_of_digits max digits.now }
    ensures within { IfSome result (λ n. n ≤ max) }
{
    if digits.starts_with('+') {
        return None;
    }
    match digits.parse::<u64>() {
        Ok(n) if n <= max => Some(n),
        _ => None,
    }
}

/// The number that digits alone write, if it is at most `max` and is written without zeros in front.
pub(crate) fn canonical_upto(max: u64, digits: &str) -> Option<u64>
    ensures { result ≡ specs.canonical_number max digits.now }
{
    let n = number_upto(max, digits)?;
    let mut buffer = Buffer::new();
    if digits == buffer.format(n) {
        Some(n)
    } else {
        None
    }
}

/// Puts a number after a text.
pub(crate) fn push_number(out: &mut Vec<u8>, n: u64) -> Result<(), AllocError>
    ensures { OnOk result (out.new.items ≡ out.old.items ++ decimal n) }
{
    let mut buffer = Buffer::new();
    out.extend_from_slice(buffer.format(n).as_bytes())
}
