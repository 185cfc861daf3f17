//! The tables of an old and a new policy of a program, whose tags differ.
ghost use Rattle.std.specs.Prelude.{◌≡◌, ◌<◌, ◌+◌, ◌^◌, ℕ, Some, slice_index, IfOk, IfErr};
ghost use Rattle.nk_policy.specs.Tree.{tree_of};
ghost use Rattle.nk_names.specs.WellFormed.{IsWellFormed};
ghost use Rattle.nk_compile.specs.MadePair.{IsMadePair, IsPairError};
ghost use Rattle.nk_compile.specs.PairAnswers.{IsPairAnswer};
ghost use Rattle.nk_compile.specs.Preparing.{IsPrepared};

use crate::prepared::Prepared;
use crate::refusal::{CompileError, Refusal};
use crate::tables::{numbers, prepare};
use crate::tagging::printed;
use nk_field::Fields;
use nk_names::Program;
use nk_policy::Pol;
use nk_table::Tables;
use nk_topo::Topo;
use std::alloc::Global;

/// The printed tables of an old and a new policy: the new one's tags are numbered after the old one's.
pub struct TablePair {
    /// The tables of the old policy.
    pub old: Tables,
    /// The tables of the new policy.
    pub new: Tables,
    /// How many tag sets the old policy has: its tags are 1 to this, the new one's greater.
    pub old_tags: u64,
}

impl Drop for TablePair {
    fn drop(self) {
        let Self {
            old: _,
            new: _,
            old_tags: _,
        } = self;
    }
}

/// The printed tables of two named policies for an update from the first to the second: each carries its policy, and the tags
/// of the new one are numbered after those of the old one.
///
/// They are refused where a name is no policy's; then where no tag is declared; then for the first reason in the order of
/// `Refusal` against the old policy, and then against the new one, the number of tags aside; then where both together have more
/// tag sets than the tag has values above 0. The only other error is that memory ran out.
pub fn compile_pair(
    alloc: Global,
    program: &Program,
    old: &str,
    new: &str,
) -> Result<TablePair, CompileError>
    ensures { IsPairAnswer program.now old.now new.now result }
{
    let Some(named_old) = program.find(old) else {
        return Err(CompileError::Refused(Refusal::NoPolicy));
    };
    let Some(named_new) = program.find(new) else {
        return Err(CompileError::Refused(Refusal::NoPolicy));
    };
    let p = named_old.written(alloc)?;
    let q = named_new.written(alloc)?;
    policy_pair(alloc, &program.fields, &program.topo, &p, &q)
}

/// The printed tables of two policies, or the first reason to refuse them.
fn policy_pair(
    alloc: Global,
    fields: &Fields,
    topo: &Topo,
    p: &Pol,
    q: &Pol,
) -> Result<TablePair, CompileError>
    requires held_old { IsWellFormed fields.now (tree_of p.now) }
    requires held_new { IsWellFormed fields.now (tree_of q.now) }
    requires room { (f : ℕ) → slice_index fields.now.maxima f + 1 < 2 ^ 64 }
    ensures made { IfOk result (IsMadePair fields.now topo.now (tree_of p.now) (tree_of q.now)) }
    ensures error { IfErr result (IsPairError fields.now topo.now (tree_of p.now) (tree_of q.now)) }
{
    let Some(tag) = fields.tag() else {
        return Err(CompileError::Refused(Refusal::NoTag));
    };
    let _few = fields.declared();
    let old = prepare(alloc, fields, topo, tag, p)?;
    let new = prepare(alloc, fields, topo, tag, q)?;
    pair_tables(fields, topo, p, q, old, new, fields.max(tag))
}

/// The printed tables of two prepared policies, the new one's tags after the old one's; together they are at most `max`, the
/// tag's largest value.
fn pair_tables(
    fields: &Fields,
    topo: &Topo,
    p: &Pol,
    q: &Pol,
    old: Prepared,
    new: Prepared,
    max: u64,
) -> Result<TablePair, CompileError>
    requires prepared { (tag : ℕ) × (max ≡ slice_index fields.now.maxima tag)
        × IsPrepared fields.now topo.now tag (tree_of p.now) old
        × IsPrepared fields.now topo.now tag (tree_of q.now) new }
    requires room { max + 1 < 2 ^ 64 }
    ensures made { IfOk result (IsMadePair fields.now topo.now (tree_of p.now) (tree_of q.now)) }
    ensures error { IfErr result (IsPairError fields.now topo.now (tree_of p.now) (tree_of q.now)) }
{
    let old_sets = numbers(&old, 0, max)?;
    let old_tags = old_sets.len() as u64;
    let new_sets = numbers(&new, old_tags, max)?;
    let old_tables = printed(old, fields, topo, p, 0, old_sets.as_slice())?;
    let new_tables = printed(new, fields, topo, q, old_tags, new_sets.as_slice())?;
    Ok(TablePair {
        old: old_tables,
        new: new_tables,
        old_tags,
    })
}
