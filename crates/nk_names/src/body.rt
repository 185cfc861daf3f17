//! Policies as their `let` has them: a name in them stands for the policy above that has it.
ghost use Rattle.std.specs.Prelude.{◌≡◌, ◌+◌, ◌<◌, ◌≤◌, ◌^◌, IfOk, OnOk};
ghost use Rattle.nk_policy.specs.Policy.{dups_of, dups_of_all, marked_from, all_marked_from};
ghost use Rattle.nk_policy.specs.Tree.{tree_of, trees_of};
ghost use Rattle.nk_names.specs.Body.{policy_in, policies_in, policy_of};

use nk_field::Fid;
use nk_policy::{Pol, Pols};
use std::alloc::{AllocError, Global};
use std::rc::Rc;

/// The parts of a sum or a sequence, in order.
#[derive(Drop)]
#[cycle(body)]
pub(crate) struct Bodies {
    items: Vec<Body>,
}

/// A policy of a name, which stands once however many policies have the name in them.
#[derive(Drop)]
#[cycle(body)]
pub(crate) struct Shared {
    body: Rc<Body>,
}

/// A policy, its dups not numbered yet.
#[derive(Drop)]
#[cycle(body)]
pub(crate) enum Body {
    /// The policy of a name.
    Name(Shared),
    /// Keeps the packet where the field has the value.
    Test(Fid, u64),
    /// Keeps the packet where the field's value is from the first to the second.
    Range(Fid, u64, u64),
    /// Sets the field to the value.
    Set(Fid, u64),
    /// All that the parts give.
    Sum(Bodies),
    /// The parts in turn.
    Seq(Bodies),
    /// Keeps the packet exactly where the predicate doesn't.
    Not(Box<Body>),
    /// All that any number of rounds gives.
    Star(Box<Body>),
    /// Records the packet.
    Dup,
    /// Crosses a link: its source's switch and port, then its target's.
    Link(u16, u16, u16, u16),
}

impl Bodies {
    /// The parts in the order of the vector.
    pub(crate) fn new(items: Vec<Body>) -> Bodies
        ensures { result.items ≡ items }
    {
        Bodies { items }
    }

    /// The parts in order.
    fn as_slice(&self) -> &[Body]
        ensures { result.now ≡ self.now.items.items }
    {
        self.items.as_slice()
    }
}

impl Shared {
    /// The policy of a name that has this body.
    pub(crate) fn new(alloc: Global, body: Body) -> Result<Shared, AllocError>
        ensures { IfOk result (λ s. policy_of s ≡ marked_from (policy_in body) 1) }
    {
        let body = Rc::new(alloc, body)?;
        Ok(Shared { body })
    }

    /// One more handle on the policy.
    pub(crate) fn again(&self) -> Result<Shared, AllocError>
        ensures { IfOk result (λ s. policy_of s ≡ policy_of self.now) }
    {
        let body = self.body.clone()?;
        Ok(Shared { body })
    }

    /// The policy with all names written out, its dups numbered from 1.
    pub(crate) fn written(&self, alloc: Global) -> Result<Pol, AllocError>
        requires { dups_of (policy_of self.now) < 4294967295 }
        ensures { IfOk result (λ q. tree_of q ≡ policy_of self.now) }
    {
        written(alloc, &self.body)
    }

    /// The policy with all names written out, its dups numbered from `first` on.
    pub(crate) fn written_from(&self, alloc: Global, first: u32) -> Result<Pol, AllocError>
        requires positive { 1 ≤ first }
        requires fit { first + dups_of (policy_of self.now) ≤ 2 ^ 32 }
        ensures { IfOk result (λ q. tree_of q ≡ marked_from (policy_of self.now) first) }
    {
        written_from(alloc, &self.body, first)
    }
}

/// The policy of a body with all names written out, its dups numbered from 1.
pub(crate) fn written(alloc: Global, body: &Body) -> Result<Pol, AllocError>
    requires { dups_of (policy_in body.now) < 4294967295 }
    ensures { IfOk result (λ q. tree_of q ≡ marked_from (policy_in body.now) 1) }
{
    written_from(alloc, body, 1)
}

/// The policy of a body with all names written out, its dups numbered from `first` on.
fn written_from(alloc: Global, body: &Body, first: u32) -> Result<Pol, AllocError>
    requires positive { 1 ≤ first }
    requires fit { first + dups_of (policy_in body.now) ≤ 2 ^ 32 }
    ensures { IfOk result (λ q. tree_of q ≡ marked_from (policy_in body.now) first) }
{
    let mut before = u64::from(first - 1);
    written_on(alloc, body, &mut before)
}

/// The policy of a body with all names written out, its dups numbered on after those that stand before. `before` counts the
/// dups that stand before, and then also the policy's own.
#[cycle(write)]
#[tactic(auto, using(crate::proofs::Bodies::policy_in_sum, crate::proofs::Bodies::policy_in_seq, crate::proofs::Bodies::name_marked, crate::proofs::Bodies::name_dups, nk_policy::proofs::Trees::tree_of_sum, nk_policy::proofs::Trees::tree_of_seq))]
fn written_on(alloc: Global, body: &Body, before: &mut u64) -> Result<Pol, AllocError>
    requires fit { before.old + dups_of (policy_in body.now) < 2 ^ 32 }
    ensures tree { IfOk result
        (λ q. tree_of q ≡ marked_from (policy_in body.now) (before.old + 1)) }
    ensures before { OnOk result (before.new ≡ before.old + dups_of (policy_in body.now)) }
{
    match body {
        Body::Name(s) => written_on(alloc, &s.body, before),
        Body::Test(f, n) => Ok(Pol::Test(*f, *n)),
        Body::Range(f, low, high) => Ok(Pol::Range(*f, *low, *high)),
        Body::Set(f, n) => Ok(Pol::Set(*f, *n)),
        Body::Sum(ps) => Ok(Pol::Sum(Pols::new(all_written_on(alloc, ps.as_slice(), before)?))),
        Body::Seq(ps) => Ok(Pol::Seq(Pols::new(all_written_on(alloc, ps.as_slice(), before)?))),
        Body::Not(p) => Ok(Pol::Not(Box::new(alloc, written_on(alloc, p, before)?)?)),
        Body::Star(p) => Ok(Pol::Star(Box::new(alloc, written_on(alloc, p, before)?)?)),
        Body::Dup => {
            *before += 1;
            Ok(Pol::Dup(*before as u32))
        }
        Body::Link(a, m, b, n) => {
            let mark = (*before + 1) as u32;
            *before += 2;
            Ok(Pol::Link(*a, *m, *b, *n, mark))
        }
    }
}

/// The policy of a part with all names written out. Most parts are tests, ranges and assignments, which are told here without a call.
#[cycle(write)]
#[inline(always)]
fn part_written_on(alloc: Global, part: &Body, before: &mut u64) -> Result<Pol, AllocError>
    requires fit { before.old + dups_of (policy_in part.now) < 2 ^ 32 }
    ensures tree { IfOk result
        (λ q. tree_of q ≡ marked_from (policy_in part.now) (before.old + 1)) }
    ensures before { OnOk result (before.new ≡ before.old + dups_of (policy_in part.now)) }
{
    match part {
        Body::Test(f, n) => Ok(Pol::Test(*f, *n)),
        Body::Range(f, low, high) => Ok(Pol::Range(*f, *low, *high)),
        Body::Set(f, n) => Ok(Pol::Set(*f, *n)),
        _ => written_on(alloc, part, before),
    }
}

/// The policies of the parts with all names written out, their dups numbered on after those that stand before.
#[cycle(write)]
#[tactic(auto, using(nk_policy::proofs::Trees::joined_push, nk_policy::proofs::Trees::joined_none))]
fn all_written_on(alloc: Global, parts: &[Body], before: &mut u64) -> Result<Vec<Pol>, AllocError>
    requires fit { before.old + dups_of_all (policies_in parts.now) < 2 ^ 32 }
    ensures trees { IfOk result
        (λ qs. trees_of qs.items ≡ all_marked_from (policies_in parts.now) (before.old + 1)) }
    ensures before { OnOk result (before.new ≡ before.old + dups_of_all (policies_in parts.now)) }
{
    let mut out = Vec::with_capacity(alloc, parts.len())?;
    for q in parts {
        out.push(part_written_on(alloc, q, before)?)?;
    }
    Ok(out)
}
