//! The bucket of an out: where it sends a copy, and what it assigns.
ghost use Rattle.std.specs.Prelude.{◌≡◌, ◌==◌, length, IfOk};
ghost use Rattle.nk_field.specs.Act.{left_without};
ghost use Rattle.nk_extract.specs.Ways.{exit_of, bucket_for, bucket_list};

use nk_field::{Act, Fid, List};
use nk_store::Out;
use nk_table::{Bucket, Exit};
use std::alloc::{AllocError, Global};

/// The buckets of a leaf's outs: one for each out, in the order of the outs. The only error is that memory ran out.
pub fn buckets(alloc: Global, tag: Fid, outs: &[Out]) -> Result<List<Bucket>, AllocError>
    ensures { IfOk result (λ bs. bs ≡ bucket_list tag outs.now) }
{
    let mut all = List::with_capacity(alloc, outs.len())?;
    for out in outs {
        let b = bucket(alloc, tag, out)?;
        all.push(b)?;
    }
    Ok(all)
}

/// The bucket of an out. It assigns what the out's act assigns to fields other than the port, and assigns the out's target to the
/// tag. Its exit is the port that the act assigns, where a number above 65,535 counts as 65,535; where the act assigns no port, the
/// exit is the port at which the packet came in. The only error is that memory ran out.
pub fn bucket(alloc: Global, tag: Fid, out: &Out) -> Result<Bucket, AllocError>
    ensures { IfOk result (λ b. b ≡ bucket_for tag out.now) }
{
    let exit = exit(out.act.as_slice());
    let last = Act::one(alloc, tag, out.target)?;
    if sets_port_alone(out.act.as_slice()) {
        return Ok(Bucket { sets: last, exit });
    }
    let kept = out.act.without(alloc, Fid::PORT)?;
    let sets = kept.then(&last)?;
    Ok(Bucket { sets, exit })
}

/// Whether the assignments set no field but the port.
fn sets_port_alone(sets: &[(Fid, u64)]) -> bool
    ensures { result ≡ (length (left_without 1 sets.now) == 0) }
{
    for (f, _) in sets {
        if f.place() != 1 {
            return false;
        }
    }
    true
}

/// The exit of an act with these assignments: the port that they set, where a number above 65,535 counts as 65,535, or back where
/// they set none.
fn exit(sets: &[(Fid, u64)]) -> Exit
    ensures { result ≡ exit_of sets.now }
{
    for (f, n) in sets {
        if f.place() == 1 {
            return Exit::Port((*n).min(65_535) as u16);
        }
    }
    Exit::Back
}
