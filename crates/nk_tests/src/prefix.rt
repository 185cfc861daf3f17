//! Blocks of intervals, with values up to the last number, and the values that agree with them.
ghost use Rattle.std.specs.Prelude.{◌≤◌};

use nk_prefix::{agrees, blocks, digits_of};
use std::alloc::Global;
use std::test::Fail;

/// Whether the blocks of an interval are these.
fn has_blocks(alloc: Global, lo: u64, hi: u64, max: u64, wanted: &[(u64, u8)]) -> Result<bool, Fail>
    requires { hi ≤ max }
{
    let made = blocks(alloc, lo, hi, max)?;
    Ok(made.as_slice() == wanted)
}

#[test]
fn blocks_of_intervals(rt: HostRuntime) -> Result<(), Fail> {
    assert!(rt; has_blocks(rt.alloc(), 0, 0, 7, &[(0, 3)])?);
    assert!(rt; has_blocks(rt.alloc(), 6, 7, 7, &[(6, 2)])?);
    assert!(rt; has_blocks(rt.alloc(), 1, 5, 7, &[(1, 3), (2, 2), (4, 2)])?);
    assert!(rt; has_blocks(rt.alloc(), 2, 5, 9, &[(2, 3), (4, 3)])?);
    assert!(rt; has_blocks(rt.alloc(), 8, 9, 9, &[(8, 1)])?);
    assert!(rt; has_blocks(rt.alloc(), 9, 9, 9, &[(9, 4)])?);
    assert!(rt; has_blocks(rt.alloc(), 3, 2, 9, &[])?);
    assert!(rt; has_blocks(rt.alloc(), 0, 0, 0, &[(0, 1)])?);
    Ok(())
}

#[test]
fn blocks_up_to_the_last_number(rt: HostRuntime) -> Result<(), Fail> {
    let last = u64::MAX;
    assert!(rt; has_blocks(rt.alloc(), 0, last, last, &[(0, 0)])?);
    assert!(rt; has_blocks(rt.alloc(), 1 << 63, last, last, &[(1 << 63, 1)])?);
    assert!(rt;
        has_blocks(
            rt.alloc(),
            last - 2,
            last,
            last,
            &[(last - 2, 64), (last - 1, 63)]
        )?
    );
    let many = blocks(rt.alloc(), 1, last - 1, last)?;
    assert_eq!(rt; many.len(), 126);
    Ok(())
}

#[test]
fn digits_and_prefixes(rt: HostRuntime) {
    for (max, digits) in [(0, 1), (1, 1), (7, 3), (8, 4), (65535, 16), (u64::MAX, 64)] {
        assert_eq!(rt; digits_of(max), digits, "at {max}");
    }
    assert!(rt; agrees(6, 2, 3, 7));
    assert!(rt; !agrees(6, 2, 3, 5));
    assert!(rt; agrees(0, 0, 64, u64::MAX));
}
