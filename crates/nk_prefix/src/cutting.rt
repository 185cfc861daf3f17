//! Prefixes, and the blocks of an interval.
ghost use Rattle.std.specs.Prelude.{◌≡◌, ◌≤◌, ◌<◌, ◌+◌, ◌^◌, IfOk};
ghost use Rattle.nk_prefix.specs.Prefix as prefix;
ghost use Rattle.nk_prefix.specs.Prefix.{agrees_to};
ghost use Rattle.nk_prefix.specs.Blocks.{blocks_of, end_of, largest_fit};

use std::alloc::{AllocError, Global};

/// How many binary digits a number has: 1 to 64, and 1 for 0.
pub fn digits_of(max: u64) -> u8
    ensures is { result ≡ prefix.digits_of max }
    ensures small { result ≤ 64 }
{
    if max == 0 {
        1
    } else {
        (64 - max.leading_zeros()) as u8
    }
}

/// Whether a value and a number `n`, each written with `digits` binary digits, have the same first `len` of them. `len`
/// is at most `digits`, and `digits` at most 64.
pub fn agrees(value: u64, len: u8, digits: u8, n: u64) -> bool
    requires len { len ≤ digits }
    requires digits { digits ≤ 64 }
    ensures { result ≡ agrees_to value len digits n }
{
    let rest = (digits - len) as u32;
    (n as u128) >> rest == (value as u128) >> rest
}

/// The interval from `lo` to `hi`, both included, cut into prefixes: each block is its first value and how many leading
/// digits its values share, of the digits of `max`, the field's largest value. There is none where `lo` is above `hi`.
/// An interval of several values that ends at `max` counts as ending at the largest number of as many digits. The only
/// error is that memory ran out.
pub fn blocks(alloc: Global, lo: u64, hi: u64, max: u64) -> Result<Vec<(u64, u8)>, AllocError>
    requires { hi ≤ max }
    ensures { IfOk result (λ all. all.items ≡ blocks_of lo hi max) }
{
    let digits = digits_of(max);
    let end = last(lo, hi, max, digits);
    let mut all = Vec::new(alloc);
    let mut from = lo as u128;
    while from <= end as u128 && from <= max as u128 {
        let free = free_digits(from as u64, end, digits);
        all.push((from as u64, digits - free))?;
        from += 1u128 << (free as u32);
    }
    Ok(all)
}

/// Where an interval counts as ending.
fn last(lo: u64, hi: u64, max: u64, digits: u8) -> u64
    requires digits { digits ≡ prefix.digits_of max }
    requires small { digits ≤ 64 }
    ensures { result ≡ end_of lo hi max }
{
    if lo < hi && hi == max {
        ((1u128 << (digits as u32)) - 1) as u64
    } else {
        hi
    }
}

/// How many digits are free in the largest block that begins at a value and fits.
fn free_digits(from: u64, end: u64, digits: u8) -> u8
    requires within { from ≤ end }
    requires small { digits ≤ 64 }
    ensures is { result ≡ largest_fit from end digits }
    ensures most { result ≤ digits }
{
    let aligned = from.trailing_zeros();
    let fitting = whole_digits((end - from) as u128 + 1);
    aligned.min(fitting).min(digits as u32) as u8
}

/// The largest power of two that is at most a number, as its exponent.
fn whole_digits(n: u128) -> u32
    requires { 0 < n }
    ensures most { 2 ^ result ≤ n }
    ensures next { n < 2 ^ (result + 1) }
{
    127 - n.leading_zeros()
}
