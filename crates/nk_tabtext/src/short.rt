//! Short pieces of a text, put after it byte by byte: rows are made of them.
ghost use Rattle.std.specs.Prelude.{◌≡◌, ◌++◌, OnOk};

use std::alloc::AllocError;

/// Puts a word, a name or the digits of a number, which mostly are few bytes.
#[inline(always)]
pub(crate) fn piece(out: &mut Vec<u8>, bytes: &[u8]) -> Result<(), AllocError>
    ensures { OnOk result (out.new.items ≡ out.old.items ++ bytes.now) }
{
    if bytes.len() > 8 {
        return out.extend_from_slice(bytes);
    }
    few(out, bytes)
}

/// Puts a few bytes.
#[inline(always)]
fn few(out: &mut Vec<u8>, bytes: &[u8]) -> Result<(), AllocError>
    ensures { OnOk result (out.new.items ≡ out.old.items ++ bytes.now) }
{
    for byte in bytes {
        out.push(*byte)?;
    }
    Ok(())
}
