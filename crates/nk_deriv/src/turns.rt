//! Policies without dups, and parts, one after another.
ghost use Rattle.std.specs.Prelude.{◌≡◌, ◌++◌, List as Items, IfOk, OnOk};
ghost use Rattle.nk_policy.specs.Policy.{star_of};
ghost use Rattle.nk_policy.specs.After.{id_policy, drop_policy};
ghost use Rattle.nk_policy.specs.Tree.{tree_of, trees_of};
ghost use Rattle.nk_policy.specs.declared.policy.Pol.{Pol as PolValue};
ghost use Rattle.nk_deriv.specs.Turns.{is_drop as is_drop_tree, steps_of as steps_of_tree, IsTurn, IsRounds, ArePutAfter, AreInTurn, IsSequencedBefore};

use crate::values::Part;
use nk_field::List;
use nk_policy::{Pol, Pols};
use std::alloc::{AllocError, Global};

/// The policy that keeps each packet, `id`.
#[tactic(auto, using(nk_policy::proofs::Trees::tree_of_seq))]
pub fn keeping(alloc: Global) -> Pol
    ensures { tree_of result ≡ id_policy }
{
    Pol::Seq(Pols::new(Vec::new(alloc)))
}

/// The policy that drops each packet, `drop`.
#[tactic(auto, using(nk_policy::proofs::Trees::tree_of_sum))]
pub fn dropping(alloc: Global) -> Pol
    ensures { tree_of result ≡ drop_policy }
{
    Pol::Sum(Pols::new(Vec::new(alloc)))
}

/// Whether it is the empty sum.
#[tactic(auto, using(nk_policy::proofs::Trees::tree_of_sum))]
pub fn is_drop(p: &Pol) -> bool
    ensures { result ≡ is_drop_tree (tree_of p.now) }
{
    match p {
        Pol::Sum(ps) => ps.as_slice().is_empty(),
        Pol::Test(_, _) | Pol::Set(_, _) | Pol::Dup(_) | Pol::Link(_, _, _, _, _) => false,
        Pol::Seq(_) | Pol::Range(_, _, _) => false,
        Pol::Not(_) | Pol::Star(_) => false,
    }
}

/// The first policy, then the second: the empty sum where one of them is that, and else one sequence.
fn followed_by(alloc: Global, p: Pol, q: &Pol) -> Result<Pol, AllocError>
    ensures { IfOk result (λ r. IsTurn (tree_of r) (tree_of p) (tree_of q.now)) }
{
    let p_drops = is_drop(&p);
    if p_drops {
        return Ok(dropping(alloc));
    }
    let q_drops = is_drop(q);
    if q_drops {
        return Ok(dropping(alloc));
    }
    let mut steps = steps_of(alloc, p)?;
    push_steps(alloc, &mut steps, q)?;
    Ok(Pol::Seq(Pols::new(steps)))
}

/// The parts of a sequence, and any other policy alone.
#[tactic(auto, using(nk_policy::proofs::Trees::tree_of_seq))]
fn steps_of(alloc: Global, p: Pol) -> Result<Vec<Pol>, AllocError>
    ensures { IfOk result (λ v. trees_of v.items ≡ steps_of_tree (tree_of p)) }
{
    match p {
        Pol::Seq(ps) => Ok(ps.into_vec()),
        other => Ok(vec![in alloc; other]?),
    }
}

/// Puts copies of the parts of a sequence at the end, and of any other policy one.
#[tactic(auto, using(nk_policy::proofs::Trees::tree_of_seq))]
fn push_steps(alloc: Global, steps: &mut Vec<Pol>, p: &Pol) -> Result<(), AllocError>
    ensures { OnOk result ((added : Items PolValue) × (steps.new.items ≡ steps.old.items ++ added)
        × (trees_of added ≡ steps_of_tree (tree_of p.now))) }
{
    match p {
        Pol::Seq(ps) => push_copies(alloc, steps, ps.as_slice()),
        other => {
            steps.push(other.copy(alloc)?)?;
            Ok(())
        }
    }
}

/// Puts copies at the end.
fn push_copies(alloc: Global, out: &mut Vec<Pol>, ps: &[Pol]) -> Result<(), AllocError>
    ensures { OnOk result ((added : Items PolValue) × (out.new.items ≡ out.old.items ++ added)
        × (trees_of added ≡ trees_of ps.now)) }
{
    for p in ps {
        out.push(p.copy(alloc)?)?;
    }
    Ok(())
}

/// Any number of rounds of a policy, 0 rounds too; for the empty sum that is the policy that keeps
/// each packet. The only error is that memory ran out.
pub fn repeated(alloc: Global, p: Pol) -> Result<Pol, AllocError>
    ensures { IfOk result (λ r. IsRounds (tree_of r) (tree_of p)) }
{
    let drops = is_drop(&p);
    if drops {
        return Ok(keeping(alloc));
    }
    let star = star(alloc, p)?;
    Ok(star)
}

/// The star of a policy.
fn star(alloc: Global, p: Pol) -> Result<Pol, AllocError>
    ensures { IfOk result (λ r. tree_of r ≡ star_of (tree_of p)) }
{
    Ok(Pol::Star(Box::new(alloc, p)?))
}

/// Puts the legs after those that are there, each with the free policy before it; none where that is
/// the empty sum. The only error is that memory ran out.
pub fn put_following(
    alloc: Global,
    out: &mut List<(Pol, u32)>,
    free: &Pol,
    legs: &[(Pol, u32)],
) -> Result<(), AllocError>
    ensures { OnOk result (ArePutAfter out.old out.new (tree_of free.now) legs.now) }
{
    let none = is_drop(free);
    if none {
        return Ok(());
    }
    for leg in legs {
        let front = free.copy(alloc)?;
        let ways = followed_by(alloc, front, &leg.0)?;
        out.push((ways, leg.1))?;
    }
    Ok(())
}

/// The free policy of these parts, one after another; their legs are put after those that are there.
/// The only error is that memory ran out.
pub fn in_turn(
    alloc: Global,
    states: &[Part],
    legs: &mut List<(Pol, u32)>,
) -> Result<Pol, AllocError>
    ensures { IfOk result (λ r. AreInTurn legs.old legs.new (tree_of r) states.now) }
{
    let mut free = keeping(alloc);
    for state in states {
        let none = is_drop(&free);
        if none {
            return Ok(free);
        }
        put_following(alloc, legs, &free, state.legs.as_slice())?;
        free = followed_by(alloc, free, &state.free)?;
    }
    Ok(free)
}

/// The part of these parts, one after another, followed by the next one. The only error is that
/// memory ran out.
pub fn continued(alloc: Global, states: &[Part], next: &Part) -> Result<Part, AllocError>
    ensures { IfOk result (λ r. IsSequencedBefore r states.now next.now) }
{
    let mut legs = List::new(alloc);
    let free = in_turn(alloc, states, &mut legs)?;
    put_following(alloc, &mut legs, &free, next.legs.as_slice())?;
    let whole = followed_by(alloc, free, &next.free)?;
    Ok(Part { free: whole, legs })
}
