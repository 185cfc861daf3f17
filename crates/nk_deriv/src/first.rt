//! The part of a policy: where it ends without a record, and what it records first.
ghost use Rattle.std.specs.Prelude.{◌≡◌, IfOk, OnOk};
ghost use Rattle.nk_policy.specs.Policy.{test, sum_of, seq_of, no_part, part};
ghost use Rattle.nk_policy.specs.Tree.{tree_of, trees_of};
ghost use Rattle.nk_deriv.specs.Part.{NegatesPredicates, AllNegatePredicates, IsPartOfDerivative};
ghost use Rattle.nk_deriv.specs.Turns.{IsCollected, IsEither, ArePartsOf};

use crate::turns::{dropping, in_turn, is_drop, keeping, put_following, repeated};
use crate::values::Part;
use nk_field::{Fid, List};
use nk_policy::{Pol, Pols};
use std::alloc::{AllocError, Global};

/// The part of a policy. The only error is that memory ran out.
pub fn part_of(alloc: Global, p: &Pol) -> Result<Part, AllocError>
    requires complements { NegatesPredicates (tree_of p.now) }
    ensures { IfOk result (λ r. IsPartOfDerivative r (tree_of p.now)) }
{
    let mut legs = List::new(alloc);
    let free = collected(alloc, p, &mut legs)?;
    Ok(Part { free, legs })
}

/// The free policy of a policy; puts its legs after those before.
#[cycle(first)]
#[tactic(auto, using(nk_policy::proofs::Trees::tree_of_sum, nk_policy::proofs::Trees::tree_of_seq))]
fn collected(alloc: Global, p: &Pol, legs: &mut List<(Pol, u32)>) -> Result<Pol, AllocError>
    requires complements { NegatesPredicates (tree_of p.now) }
    ensures { IfOk result (λ r. IsCollected legs.old legs.new (tree_of r) (tree_of p.now)) }
{
    match p {
        Pol::Test(f, n) => Ok(Pol::Test(*f, *n)),
        Pol::Range(f, lo, hi) => Ok(Pol::Range(*f, *lo, *hi)),
        Pol::Set(f, n) => Ok(Pol::Set(*f, *n)),
        Pol::Not(_) => {
            let same = p.copy(alloc)?;
            Ok(same)
        }
        Pol::Sum(ps) => {
            let terms = ps.as_slice();
            let any = collected_any(alloc, terms, legs)?;
            Ok(any)
        }
        Pol::Seq(ps) => {
            let members = ps.as_slice();
            let states = parts_of_all(alloc, members)?;
            let turns = states.as_slice();
            let all = in_turn(alloc, turns, legs)?;
            Ok(all)
        }
        Pol::Star(q) => {
            let mut firsts = List::new(alloc);
            let round = collected(alloc, q, &mut firsts)?;
            let star = repeated(alloc, round)?;
            let following = firsts.as_slice();
            put_following(alloc, legs, &star, following)?;
            Ok(star)
        }
        Pol::Dup(l) => {
            let here = keeping(alloc);
            legs.push((here, *l))?;
            let none = dropping(alloc);
            Ok(none)
        }
        Pol::Link(a, m, _, _, l) => {
            let source = at_port(alloc, *a, *m)?;
            legs.push((source, *l))?;
            let nothing = dropping(alloc);
            Ok(nothing)
        }
    }
}

/// The free policy of a sum; puts its legs after those before.
#[cycle(first)]
fn collected_any(alloc: Global, ps: &[Pol], legs: &mut List<(Pol, u32)>) -> Result<Pol, AllocError>
    requires complements { AllNegatePredicates (trees_of ps.now) }
    ensures { IfOk result (λ r.
        IsCollected legs.old legs.new (tree_of r) (sum_of (trees_of ps.now))) }
{
    let mut frees = Vec::new(alloc);
    for q in ps {
        let free = collected(alloc, q, legs)?;
        push_term(&mut frees, free)?;
    }
    let sum = Pols::new(frees);
    Ok(Pol::Sum(sum))
}

/// The parts of policies, in order. The only error is that memory ran out.
#[cycle(first)]
pub fn parts_of_all(alloc: Global, ps: &[Pol]) -> Result<List<Part>, AllocError>
    requires complements { AllNegatePredicates (trees_of ps.now) }
    ensures { IfOk result (λ states. ArePartsOf states (trees_of ps.now)) }
{
    let mut states = List::new(alloc);
    for q in ps {
        let mut legs = List::new(alloc);
        let free = collected(alloc, q, &mut legs)?;
        states.push(Part { free, legs })?;
    }
    Ok(states)
}

/// Puts a policy at the end, but not the empty sum.
fn push_term(terms: &mut Vec<Pol>, p: Pol) -> Result<(), AllocError>
    ensures { OnOk result (IsEither (sum_of (trees_of terms.new.items))
        (sum_of (trees_of terms.old.items)) (tree_of p)) }
{
    let none = is_drop(&p);
    if none {
        return Ok(());
    }
    terms.push(p)?;
    Ok(())
}

/// The tests of a port.
#[tactic(auto, using(nk_policy::proofs::Trees::tree_of_seq))]
fn at_port(alloc: Global, switch: u16, port: u16) -> Result<Pol, AllocError>
    ensures { IfOk result (λ r. tree_of r
        ≡ seq_of (part (test 0 switch) (part (test 1 port) no_part))) }
{
    let tests = vec![in alloc;
        Pol::Test(Fid::SWITCH, u64::from(switch)),
        Pol::Test(Fid::PORT, u64::from(port)),
    ]?;
    Ok(Pol::Seq(Pols::new(tests)))
}
