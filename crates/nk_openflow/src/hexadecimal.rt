//! Hexadecimal digits, a fixed number of them, put after a text.
ghost use Rattle.std.specs.Prelude.{◌≡◌, ◌++◌, ◌%◌, ◌<◌, OnOk};
ghost use Rattle.nk_openflow.specs.Values as specs;

use std::alloc::AllocError;

/// The digit of a number below 16.
fn digit(n: u8) -> u8
    requires { n < 16 }
    ensures { result ≡ specs.hexadecimal_digit n }
{
    if n < 10 { b'0' + n } else { b'a' + (n - 10) }
}

/// Puts the last two hexadecimal digits of a number.
pub(crate) fn push_two(out: &mut Vec<u8>, n: u128) -> Result<(), AllocError>
    ensures { OnOk result (out.new.items ≡ out.old.items ++ specs.two_digits n) }
{
    out.push(digit((n / 16 % 16) as u8))?;
    out.push(digit((n % 16) as u8))?;
    Ok(())
}

/// The last four.
pub(crate) fn push_four(out: &mut Vec<u8>, n: u128) -> Result<(), AllocError>
    ensures { OnOk result (out.new.items ≡ out.old.items ++ specs.four_digits n) }
{
    push_two(out, n / 256)?;
    push_two(out, n)
}

/// The last eight.
pub(crate) fn push_eight(out: &mut Vec<u8>, n: u128) -> Result<(), AllocError>
    ensures { OnOk result (out.new.items ≡ out.old.items ++ specs.eight_digits n) }
{
    push_four(out, n / 65_536)?;
    push_four(out, n)
}

/// The last sixteen.
pub(crate) fn push_sixteen(out: &mut Vec<u8>, n: u128) -> Result<(), AllocError>
    ensures { OnOk result (out.new.items ≡ out.old.items ++ specs.sixteen_digits n) }
{
    push_eight(out, n / 4_294_967_296)?;
    push_eight(out, n)
}
