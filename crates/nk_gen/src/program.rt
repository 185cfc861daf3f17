//! The text of a generated program.
ghost use Rattle.std.specs.Prelude.{◌≡◌, ◌≤◌, ◌+◌, ◌*◌, IfOk, length, take, drop, slice_index};
ghost use Rattle.nk_gen.specs.Network.{homes_by, chords_by};
ghost use Rattle.nk_gen.specs.Text.{generated};

use crate::drawn::draws;
use crate::network::{Home, Link, chords, homes, ring, tree};
use crate::text::{push_fields, push_homes, push_links, push_named, push_policies, push_switches};
use std::alloc::{AllocError, Global};

/// The text of a program with 2 to 1,000 switches, made by draws from a seed, 1 to 2147483646: fields, tag, switches and
/// links; the policies `home`, `ring`, `chord` and `tree`, and `hop`, `go`, `same` and `cast`, made of these. The draws
/// are those of Park and Miller (Communications of the ACM 31, 1988) with the multiplier 48271 (36, 1993). The only error
/// is that memory ran out.
pub fn generate(alloc: Global, size: u64, seed: u64) -> Result<Vec<u8>, AllocError>
    requires sizes { (2 ≤ size) × (size ≤ 1000) }
    requires seeds { (1 ≤ seed) × (seed ≤ 2147483646) }
    ensures { IfOk result (λ text. text.items ≡ generated size seed) }
{
    let drawn = draws(alloc, seed, 2 * size + 1)?;
    let homes = drawn_homes(alloc, size, &drawn)?;
    let ring = ring(alloc, size)?;
    let chords = drawn_chords(alloc, size, &drawn)?;
    let tree = tree(alloc, size)?;
    let mut out = Vec::new(alloc);
    push_fields(&mut out)?;
    push_switches(&mut out, size)?;
    push_links(&mut out, &ring, &chords, &tree)?;
    push_homes(&mut out, &homes)?;
    push_named(&mut out, &ring, &chords, &tree)?;
    push_policies(&mut out, drawn_key(size, &drawn))?;
    Ok(out)
}

/// The homes, by the first draws.
fn drawn_homes(alloc: Global, size: u64, drawn: &[u64]) -> Result<Vec<Home>, AllocError>
    requires size { size ≤ 1000 }
    requires drawn { size ≤ length drawn.now }
    ensures { IfOk result (λ all. all.items ≡ homes_by (take size drawn.now)) }
{
    let (front, _rest) = drawn.split_at(size as usize);
    let all = homes(alloc, front)?;
    Ok(all)
}

/// The chords, by the draws after those for homes.
fn drawn_chords(alloc: Global, size: u64, drawn: &[u64]) -> Result<Vec<Link>, AllocError>
    requires size { (1 ≤ size) × (size ≤ 1000) }
    requires drawn { length drawn.now ≡ 2 * size + 1 }
    ensures { IfOk result (λ all. all.items ≡ chords_by size (take size (drop size drawn.now))) }
{
    let (_front, following) = drawn.split_at(size as usize);
    let (middle, _last) = following.split_at(size as usize);
    let all = chords(alloc, size, middle)?;
    Ok(all)
}

/// The key: the draw after those for homes and chords.
fn drawn_key(size: u64, drawn: &[u64]) -> u64
    requires size { size ≤ 1000 }
    requires drawn { length drawn.now ≡ 2 * size + 1 }
    ensures { result ≡ slice_index drawn.now (2 * size) }
{
    drawn[2 * size as usize]
}
