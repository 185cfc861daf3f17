//! The parts of what is left of a policy after each of its dups.
ghost use Rattle.std.specs.Prelude.{◌≡◌, ◌-◌, ◌^◌, ◌≤◌, ◌++◌, ◌∷◌, [], length, drop, IfOk, OnOk};
ghost use Rattle.nk_policy.specs.declared.policy.Pol.{Pol as PolValue};
ghost use Rattle.nk_policy.specs.Policy.{assign, seq_of, no_part, part, numbers_of, numbers_of_all, MarksBelow, AllMarksBelow};
ghost use Rattle.nk_policy.specs.Tree.{tree_of, trees_of};
ghost use Rattle.nk_policy.specs.After.{drop_policy, after, after_some, after_all};
ghost use Rattle.nk_policy.specs.Distinct.{HasDistinct, AllDistinct};
ghost use Rattle.nk_deriv.specs.declared.values.Part.{Part as PartValue};
ghost use Rattle.nk_deriv.specs.Part.{NegatesPredicates, AllNegatePredicates};
ghost use Rattle.nk_deriv.specs.Turns.{AreRests, ArePartsOf, IsSequencedBefore};

use crate::first::{part_of, parts_of_all};
use crate::turns::{continued, dropping};
use crate::values::Part;
use nk_field::{Fid, List};
use nk_policy::{Pol, Pols, dups};
use std::alloc::{AllocError, Global};
use std::slice;

/// Puts at the end, for each dup of the policy in text order, its label and the part of what is left of the policy after
/// that dup, followed by `next`. The only error is that memory ran out.
#[cycle(rests)]
#[tactic(auto, using(nk_policy::proofs::Trees::tree_of_sum, nk_policy::proofs::Trees::tree_of_seq))]
pub fn rests(
    alloc: Global,
    p: &Pol,
    next: &Part,
    out: &mut List<(u32, Part)>,
) -> Result<(), AllocError>
    requires distinct { HasDistinct (tree_of p.now) }
    requires complements { NegatesPredicates (tree_of p.now) }
    requires fit { MarksBelow (tree_of p.now) (2 ^ 32 - 1) }
    ensures { OnOk result (AreRests out.old out.new (after (tree_of p.now))
        (numbers_of (tree_of p.now)) next.now) }
{
    match p {
        Pol::Test(_, _) => Ok(()),
        Pol::Range(_, _, _) => Ok(()),
        Pol::Set(_, _) => Ok(()),
        Pol::Not(_) => Ok(()),
        Pol::Sum(ps) => {
            let terms = ps.as_slice();
            rests_of_any(alloc, terms, next, out)?;
            Ok(())
        }
        Pol::Seq(ps) => {
            let members = ps.as_slice();
            let states = parts_of_all(alloc, members)?;
            let turns = states.as_slice();
            rests_in_turn(alloc, members, turns, next, out)?;
            Ok(())
        }
        Pol::Star(q) => {
            let star = part_of(alloc, p)?;
            let again = continued(alloc, slice::from_ref(&star), next)?;
            rests(alloc, q, &again, out)?;
            Ok(())
        }
        Pol::Dup(l) => {
            push_next(alloc, *l, next, out)?;
            Ok(())
        }
        Pol::Link(_, _, b, n, l) => {
            let crossing = arriving(alloc, *b, *n, *l + 1)?;
            out.push((*l, crossing))?;
            push_next(alloc, *l + 1, next, out)?;
            Ok(())
        }
    }
}

/// The rests of a sum.
#[cycle(rests)]
fn rests_of_any(
    alloc: Global,
    ps: &[Pol],
    next: &Part,
    out: &mut List<(u32, Part)>,
) -> Result<(), AllocError>
    requires distinct { AllDistinct (trees_of ps.now) }
    requires complements { AllNegatePredicates (trees_of ps.now) }
    requires fit { AllMarksBelow (trees_of ps.now) (2 ^ 32 - 1) }
    ensures { OnOk result (AreRests out.old out.new (after_some (trees_of ps.now))
        (numbers_of_all (trees_of ps.now)) next.now) }
{
    for q in ps {
        rests(alloc, q, next, out)?;
    }
    Ok(())
}

/// The rests of a sequence, by the parts of its members.
#[cycle(rests)]
fn rests_in_turn(
    alloc: Global,
    ps: &[Pol],
    states: &[Part],
    next: &Part,
    out: &mut List<(u32, Part)>,
) -> Result<(), AllocError>
    requires distinct { AllDistinct (trees_of ps.now) }
    requires complements { AllNegatePredicates (trees_of ps.now) }
    requires fit { AllMarksBelow (trees_of ps.now) (2 ^ 32 - 1) }
    requires states { ArePartsOf states.now (trees_of ps.now) }
    ensures { OnOk result (AreRests out.old out.new (after_all (trees_of ps.now))
        (numbers_of_all (trees_of ps.now)) next.now) }
{
    for (i, q) in ps.iter().enumerate() {
        let count = dups(q);
        if count > 0 {
            let later = states_from(states, i + 1);
            let following = continued(alloc, later, next)?;
            rests(alloc, q, &following, out)?;
        }
    }
    Ok(())
}

/// The parts from a place on.
fn states_from(states: &[Part], from: usize) -> &[Part]
    requires { from ≤ length states.now }
    ensures { result.now ≡ drop from states.now }
{
    &states[from..]
}

/// Puts the label with a copy of the next part at the end.
fn push_next(
    alloc: Global,
    label: u32,
    next: &Part,
    out: &mut List<(u32, Part)>,
) -> Result<(), AllocError>
    ensures { OnOk result ((rest : PartValue) × (out.new ≡ out.old ++ (label, rest) ∷ [])
        × IsSequencedBefore rest [] next.now) }
{
    let rest = continued(alloc, &[], next)?;
    out.push((label, rest))?;
    Ok(())
}

/// The rest of a link after its first dup: the packet is set to the target and recorded at the second one.
fn arriving(alloc: Global, switch: u16, port: u16, label: u32) -> Result<Part, AllocError>
    ensures free { IfOk result (λ r. tree_of r.free ≡ drop_policy) }
    ensures legs { IfOk result (λ r. (moved : PolValue) × (r.legs ≡ (moved, label) ∷ [])
        × (tree_of moved ≡ seq_of (part (assign 0 switch) (part (assign 1 port) no_part)))) }
{
    let moved = set_port(alloc, switch, port)?;
    let mut legs = List::new(alloc);
    legs.push((moved, label))?;
    let free = dropping(alloc);
    Ok(Part { free, legs })
}

/// The assignments of a port.
#[tactic(auto, using(nk_policy::proofs::Trees::tree_of_seq))]
fn set_port(alloc: Global, switch: u16, port: u16) -> Result<Pol, AllocError>
    ensures { IfOk result (λ r. tree_of r
        ≡ seq_of (part (assign 0 switch) (part (assign 1 port) no_part))) }
{
    let moves = vec![in alloc;
        Pol::Set(Fid::SWITCH, u64::from(switch)),
        Pol::Set(Fid::PORT, u64::from(port)),
    ]?;
    Ok(Pol::Seq(Pols::new(moves)))
}
