//! Draws after a seed.
ghost use Rattle.std.specs.Prelude.{◌≡◌, IfOk, vec_len};
ghost use Rattle.nk_gen.specs.Draws as specs;

use nk_random::next_draw;
use std::alloc::{AllocError, Global};

/// So many draws after a seed, in their order.
pub(crate) fn draws(alloc: Global, seed: u64, count: u64) -> Result<Vec<u64>, AllocError>
    ensures draws { IfOk result (λ all. all.items ≡ specs.draws seed count) }
    ensures count { IfOk result (λ all. vec_len all ≡ count) }
{
    let mut all = Vec::new(alloc);
    let mut draw = seed;
    for _drawn in 0..count {
        draw = next_draw(draw);
        all.push(draw)?;
    }
    Ok(all)
}
