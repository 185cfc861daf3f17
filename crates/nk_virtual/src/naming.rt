//! The physical policy of a name.
ghost use Rattle.std.specs.Prelude.{◌≡◌, Some, All};
ghost use Rattle.nk_policy.specs.Tree.{tree_of};
ghost use Rattle.nk_names.specs.ProgramValue.{IsLet};
ghost use Rattle.nk_virtual.specs.Answers.{IsAnswerFor, IsAnswerOver, IsVirtualAnswer};
ghost use Rattle.nk_virtual.specs.Reasons.{IsUsable};

use crate::building::expanded;
use crate::flaws::first_flaw;
use crate::literal::ends_of;
use crate::refusal::{VirtualError, VirtualRefusal};
use nk_field::Fid;
use nk_names::{NamedPolicy, Program};
use nk_policy::Pol;
use nk_static::static_fault_among;
use std::alloc::Global;

/// The physical policy of a named policy over a program's virtual links: the policy with each literal of a virtual link replaced
/// by the link's fabric at the link's start, its dups numbered from 1 in text order (virtual networks: Casado et al., PRESTO
/// 2010; Smolka et al., ICFP 2015). From each packet in range without a tag it has exactly the histories of the named policy,
/// each step over a virtual link taken over the fabric, and it ends where the named policy does. It may be more than 256 deep.
///
/// A name is refused for the first reason in the order of `VirtualRefusal`; the only other error is that memory ran out.
pub fn physical(alloc: Global, program: &Program, name: &str) -> Result<Pol, VirtualError>
    ensures { IsVirtualAnswer program.now name.now result }
{
    match program.find(name) {
        Some(policy) => answer_for(alloc, program, policy),
        None => Err(VirtualError::Refused(VirtualRefusal::NoPolicy)),
    }
}

/// The physical policy of a policy over the program's virtual links, or why it is refused.
fn answer_for(alloc: Global, program: &Program, policy: &NamedPolicy) -> Result<Pol, VirtualError>
    requires { IsLet program.now.fields policy.now }
    ensures { IsAnswerFor program.now.fields program.now.topo program.now.virtuals policy.now
        result }
{
    let Some(tag) = program.fields.tag() else {
        return Err(VirtualError::Refused(VirtualRefusal::NoTag));
    };
    let links = program.virtual_links();
    match first_flaw(alloc, &program.fields, &program.topo, tag, links)? {
        Some(refusal) => Err(VirtualError::Refused(refusal)),
        None => {
            let p = policy.written(alloc)?;
            answer_over(alloc, program, tag, &p)
        }
    }
}

/// The physical policy of a policy over the program's virtual links, which are usable, or why it is refused.
fn answer_over(alloc: Global, program: &Program, tag: Fid, p: &Pol) -> Result<Pol, VirtualError>
    requires declared { program.now.fields.tag ≡ Some tag }
    requires usable { All (IsUsable program.now.fields program.now.topo tag) program.now.virtuals }
    requires fit { IsLet program.now.fields (tree_of p.now) }
    ensures { IsAnswerOver program.now.fields program.now.topo program.now.virtuals tag
        (tree_of p.now) result }
{
    let links = program.virtual_links();
    let ends = ends_of(alloc, links)?;
    if let Some(static_kind) = static_fault_among(p, &ends, tag) {
        return Err(VirtualError::Refused(VirtualRefusal::Static(static_kind)));
    }
    expanded(alloc, links, &ends, p)
}
