//! How numbers are written.
ghost use Rattle.std.specs.Prelude.{◌≡◌, ◌<◌, ◌≤◌, ◌^◌, ◌++◌, ◌∷◌, OnOk, codes, decimal};
ghost use Rattle.nk_lex.specs.Lex.{largest};
ghost use Rattle.nk_number_forms.specs.Forms.{address_text, hardware_text, hexadecimal_text};
ghost use Rattle.nk_number_forms.specs.Numbers.{pair_text};

use crate::numbers::hex_digit;
use crate::writing::{put, put_number};
use std::alloc::AllocError;

/// Puts a byte at the end in two hexadecimal digits.
#[tactic(auto, unfolding(crate::specs::Numbers::pair_text))]
fn put_pair(out: &mut Vec<u8>, value: u64) -> Result<(), AllocError>
    requires { value < 256 }
    ensures { OnOk result (out.new.items ≡ out.old.items ++ pair_text value) }
{
    put(out, &[hex_digit(value / 16), hex_digit(value % 16)])
}

/// Puts three bytes at the end as pairs with colons between them.
fn put_pairs(out: &mut Vec<u8>, first: u64, second: u64, third: u64) -> Result<(), AllocError>
    requires first { first < 256 }
    requires second { second < 256 }
    requires third { third < 256 }
    ensures { OnOk result (out.new.items
        ≡ out.old.items ++ (pair_text first ++ 58 ∷ pair_text second ++ 58 ∷ pair_text third)) }
{
    put_pair(out, first)?;
    put(out, b":")?;
    put_pair(out, second)?;
    put(out, b":")?;
    put_pair(out, third)
}

/// Puts a number below 2^48 at the end as a hardware address. The only error is that memory ran out.
pub fn put_hardware(out: &mut Vec<u8>, number: u64) -> Result<(), AllocError>
    requires { number ≤ largest }
    ensures { OnOk result (out.new.items ≡ out.old.items ++ hardware_text number) }
{
    put_pairs(
        out,
        number / 1_099_511_627_776,
        number / 4_294_967_296 % 256,
        number / 16_777_216 % 256,
    )?;
    put(out, b":")?;
    put_pairs(out, number / 65_536 % 256, number / 256 % 256, number % 256)
}

/// Puts two numbers at the end with a dot between them.
fn put_dotted(out: &mut Vec<u8>, first: u64, second: u64) -> Result<(), AllocError>
    ensures { OnOk result (out.new.items
        ≡ out.old.items ++ (decimal first ++ 46 ∷ decimal second)) }
{
    put_number(out, first)?;
    put(out, b".")?;
    put_number(out, second)
}

/// Puts a number at the end as an IPv4 address. From 2^32 on its first part is above 255, so the text is no address. The only
/// error is that memory ran out.
pub fn put_address(out: &mut Vec<u8>, number: u64) -> Result<(), AllocError>
    ensures { OnOk result (out.new.items ≡ out.old.items ++ address_text number) }
{
    put_dotted(out, number / 16_777_216, number / 65_536 % 256)?;
    put(out, b".")?;
    put_dotted(out, number / 256 % 256, number % 256)
}

/// Puts a number below 2^16 at the end as `0x` and four hexadecimal digits. The only error is that memory ran out.
pub fn put_hexadecimal(out: &mut Vec<u8>, number: u64) -> Result<(), AllocError>
    requires { number < 2 ^ 16 }
    ensures { OnOk result (out.new.items ≡ out.old.items ++ hexadecimal_text number) }
{
    put(out, b"0x")?;
    put_pair(out, number / 256)?;
    put_pair(out, number % 256)
}
