//! Both what a policy does without a record and what it records first, for a star that holds stars.
ghost use Rattle.std.specs.Prelude.{ℕ, IfOk};
ghost use Rattle.nk_policy.specs.Policy.{Policy, Policies, seq_of, star_of, part};
ghost use Rattle.nk_store.specs.StoreState.{IsId, look, Grows};
ghost use Rattle.nk_apply.specs.Predicates.{HasOnlyFinals};
ghost use Rattle.nk_auto.specs.Continued.{IsSilent, IsContinued};
ghost use Rattle.nk_auto.specs.TwoWays.{AreWays};

use crate::silence::ended_then;
use nk_algebra::{seq, union};
use nk_policy::{Pol, may_record};
use nk_star::star;
use nk_store::{Id, Store};
use std::alloc::AllocError;

/// Two diagrams of a policy.
#[derive(Clone, Copy)]
pub struct BothWays {
    /// What it does without a record.
    pub silent: Id,
    /// What it does up to its first record, continued by nothing: what it records first.
    pub records: Id,
}

/// Whether a policy holds a star that may record.
#[cycle(nests)]
pub fn nests(p: &Pol) -> bool {
    match p {
        Pol::Sum(ps) | Pol::Seq(ps) => some_nests(ps.as_slice()),
        Pol::Star(q) => may_record(q),
        _ => false,
    }
}

/// Whether a part holds a star that may record.
#[cycle(nests)]
fn some_nests(ps: &[Pol]) -> bool {
    for p in ps {
        if nests(p) {
            return true;
        }
    }
    false
}

/// Whether a policy holds a star. What stands in a star isn't asked.
#[cycle(holds_star)]
pub fn holds_star(p: &Pol) -> bool {
    match p {
        Pol::Sum(ps) | Pol::Seq(ps) => some_holds_star(ps.as_slice()),
        Pol::Star(_) => true,
        _ => false,
    }
}

/// Whether a part holds a star.
#[cycle(holds_star)]
fn some_holds_star(ps: &[Pol]) -> bool {
    for p in ps {
        if holds_star(p) {
            return true;
        }
    }
    false
}

/// Both ways of a first part and of the parts after it, as those of all of them.
pub fn put_before(
    st: &mut Store,
    first: BothWays,
    following: BothWays,
) -> Result<BothWays, AllocError>
    requires silent { IsId st.old first.silent }
    requires ends { HasOnlyFinals (look st.old first.silent) }
    requires records { IsId st.old first.records }
    requires after_silent { IsId st.old following.silent }
    requires after_records { IsId st.old following.records }
    ensures grows { Grows st.old st.new }
    ensures ok { IfOk result
        (λ b. (p : Policy) (ps : Policies) (nothing : ℕ)
        → AreWays st.old first.silent first.records nothing p →
        AreWays st.old following.silent following.records nothing (seq_of ps) →
        AreWays st.new b.silent b.records nothing (seq_of (part p ps))) }
{
    let later = ended_then(st, first.silent, following.records)?;
    st.laws();
    let records = union(st, first.records, later)?;
    let silent = ended_then(st, first.silent, following.silent)?;
    st.laws();
    Ok(BothWays { silent, records })
}

/// Both ways of a body as those of its star, the second one continued by a diagram: rounds without a record, and then the
/// diagram or what the body records first.
pub fn around(st: &mut Store, body: BothWays, next: Id) -> Result<BothWays, AllocError>
    requires silent { IsId st.old body.silent }
    requires ends { HasOnlyFinals (look st.old body.silent) }
    requires records { IsId st.old body.records }
    requires next { IsId st.old next }
    ensures grows { Grows st.old st.new }
    ensures silent { IfOk result
        (λ b. (p : Policy) → IsSilent st.old body.silent p → IsSilent st.new b.silent (star_of p)) }
    ensures records { IfOk result
        (λ b. (p : Policy) (nothing : ℕ) → AreWays st.old body.silent body.records nothing p →
        IsContinued st.new b.records (star_of p) next) }
{
    let silent = star(st, body.silent)?;
    let onward = union(st, next, body.records)?;
    let records = seq(st, silent, onward)?;
    st.laws();
    Ok(BothWays { silent, records })
}
