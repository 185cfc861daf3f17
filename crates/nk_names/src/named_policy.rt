//! The policy of a name.
ghost use Rattle.std.specs.Prelude.{◌≡◌, ◌+◌, ◌<◌, ◌≤◌, ◌^◌, IfOk};
ghost use Rattle.nk_policy.specs.Policy.{dups_of, marked_from};
ghost use Rattle.nk_policy.specs.Tree.{tree_of};
ghost use Rattle.nk_names.specs.Body.{policy_of};

use crate::body::Shared;
use nk_policy::Pol;
use std::alloc::{AllocError, Global};
use std::marker::Model;

/// The policy of a name in a program, its dups numbered from 1. The names in it are kept as names.
#[derive(Drop)]
pub struct NamedPolicy {
    policy: Shared,
}

impl Model for NamedPolicy {
    ghost use Rattle.std.specs.Prelude.{◌<◌};
    ghost use Rattle.nk_policy.specs.Policy.{Policy, dups_of};
    ghost use Rattle.nk_names.specs.Body.{policy_of};
    ghost use Rattle.nk_names.specs.CodedPolicy.{coded_policy};

    ghost Value = { Policy };

    ghost coded = { coded_policy };

    ghost view = { λ p. policy_of p.policy };

    ghost invariant = { λ p. dups_of (policy_of p.policy) < 4294967295 };
}

impl NamedPolicy {
    /// The policy of a name, whose dups have numbers.
    pub(crate) fn new(policy: Shared) -> NamedPolicy
        requires { dups_of (policy_of policy) < 4294967295 }
        ensures { result ≡ policy_of policy }
    {
        NamedPolicy { policy }
    }

    /// A handle on the policy, for a body that has the name in it.
    pub(crate) fn shared(&self) -> Result<Shared, AllocError>
        ensures { IfOk result (λ s. policy_of s ≡ self.now) }
    {
        self.policy.again()
    }

    /// The policy once more, for another owner. The only error is that memory ran out.
    pub(crate) fn again(&self) -> Result<NamedPolicy, AllocError>
        ensures { IfOk result (λ p. p ≡ self.now) }
    {
        Ok(NamedPolicy::new(self.policy.again()?))
    }

    /// The policy with all names in it written out. The only error is that memory ran out.
    pub fn written(&self, alloc: Global) -> Result<Pol, AllocError>
        ensures { IfOk result (λ q. tree_of q ≡ self.now) }
    {
        self.policy.written(alloc)
    }

    /// The policy with all names in it written out, its dups numbered from `first` on in text order, a link counting as two.
    /// The only error is that memory ran out.
    pub fn written_from(&self, alloc: Global, first: u32) -> Result<Pol, AllocError>
        requires positive { 1 ≤ first }
        requires fit { first + dups_of self.now ≤ 2 ^ 32 }
        ensures { IfOk result (λ q. tree_of q ≡ marked_from self.now first) }
    {
        self.policy.written_from(alloc, first)
    }
}
