//! Two policies compared.
ghost use Rattle.std.specs.Prelude.{◌≡◌, ◌+◌, ◌<◌, ◌^◌, IfOk};
ghost use Rattle.nk_field.specs.Packet.{FieldTable};
ghost use Rattle.nk_store.specs.StoreState.{IsOver, Grows};
ghost use Rattle.nk_auto.specs.Continued.{IsFit};
ghost use Rattle.nk_policy.specs.Policy.{Policy, marked_from, dups_of};
ghost use Rattle.nk_policy.specs.Tree.{tree_of};
ghost use Rattle.nk_policy.specs.Ranges.{IsInRange, IsOverFields};
ghost use Rattle.nk_names.specs.Complements.{NegatesPredicates};
ghost use Rattle.nk_cert.specs.Levelled.{IsAutomatonOfBoth};
ghost use Rattle.nk_cert.specs.Comparison.{IsComparison};

use crate::compared::Compared;
use crate::leveling::levels_of_both;
use crate::pairing::{Both, automaton_of_both, number_after};
use crate::printed::certificate_of;
use nk_determ::Sets;
use nk_field::Fields;
use nk_policy::{Pol, marked};
use nk_store::Store;
use nk_witness::least_history;
use std::alloc::{AllocError, Global};

/// Whether two policies give the same histories on every packet in range, located or not, the tag being a field like any
/// other. Where they do, the answer is the printed certificate; where they don't, it is the least history that one of
/// them alone has (two automata followed together: Foster et al., POPL 2015). The left policy's dups are numbered from 1
/// on in text order; the right one's may have any numbers, and are numbered on from the left one's. Each complement is of
/// a predicate; tests, ranges and assignments are of the fields and their values; a policy may have any depth. The only
/// error is that memory ran out.
pub fn compare_policies(
    alloc: Global,
    fields: &Fields,
    p: &Pol,
    q: &Pol,
) -> Result<Compared, AllocError>
    requires numbered { marked_from (tree_of p.now) 1 ≡ tree_of p.now }
    requires few { 1 + dups_of (tree_of p.now) + dups_of (tree_of q.now) < 2 ^ 32 }
    requires left_complements { NegatesPredicates (tree_of p.now) }
    requires right_complements { NegatesPredicates (tree_of q.now) }
    requires left_over { IsOverFields fields.now (tree_of p.now) }
    requires right_over { IsOverFields fields.now (tree_of q.now) }
    ensures { IfOk result (IsComparison fields.now (tree_of p.now) (tree_of q.now)) }
{
    let bound = number_after(p);
    let mut st = Store::new(alloc, fields)?;
    let both = numbered_automaton(&mut st, p, q, bound)?;
    compare_by_levels(&mut st, &both, bound as usize)
}

/// Whether two policies give the same histories on every packet in range, as `compare_policies` answers it. Both are dropped
/// once their automaton is made. The right one's dups are numbered on from the left one's already, and the answer is that of
/// each policy that is the right one once it is so numbered. The only error is that memory ran out.
pub fn compare_owned(alloc: Global, fields: &Fields, p: Pol, q: Pol) -> Result<Compared, AllocError>
    requires numbered { marked_from (tree_of p) 1 ≡ tree_of p }
    requires following { marked_from (tree_of q) (1 + dups_of (tree_of p)) ≡ tree_of q }
    requires few { 1 + dups_of (tree_of p) + dups_of (tree_of q) < 2 ^ 32 }
    requires left_complements { NegatesPredicates (tree_of p) }
    requires right_complements { NegatesPredicates (tree_of q) }
    requires left_over { IsOverFields fields.now (tree_of p) }
    requires right_over { IsOverFields fields.now (tree_of q) }
    ensures { IfOk result (λ c. (r : Policy) → marked_from r (1 + dups_of (tree_of p)) ≡ tree_of q
        → IsComparison fields.now (tree_of p) r c) }
{
    let bound = number_after(&p);
    let mut st = Store::new(alloc, fields)?;
    let both = owned_automaton(&mut st, p, q)?;
    compare_by_levels(&mut st, &both, bound as usize)
}

/// The automaton of two policies together, the dups of the left one numbered from 1 on and those of the right one on from
/// there. Both are dropped once it is made. The only error is that memory ran out.
pub fn owned_automaton(st: &mut Store, p: Pol, q: Pol) -> Result<Both, AllocError>
    requires left { marked_from (tree_of p) 1 ≡ tree_of p }
    requires right { marked_from (tree_of q) (1 + dups_of (tree_of p)) ≡ tree_of q }
    requires few { 1 + dups_of (tree_of p) + dups_of (tree_of q) < 2 ^ 32 }
    requires left_fit { IsFit st.old.maxes (tree_of p) }
    requires right_fit { IsFit st.old.maxes (tree_of q) }
    ensures grows { Grows st.old st.new }
    ensures ok { IfOk result (λ b. (fields : FieldTable) → IsOver fields st.old
        → IsAutomatonOfBoth fields st.new b.states b.left b.right (tree_of p) (tree_of q)) }
{
    automaton_of_both(st, &p, &q)
}

/// The automaton of two policies together, the right one's dups numbered on from the bound.
fn numbered_automaton(st: &mut Store, p: &Pol, q: &Pol, bound: u32) -> Result<Both, AllocError>
    requires left { marked_from (tree_of p.now) 1 ≡ tree_of p.now }
    requires bound { bound ≡ 1 + dups_of (tree_of p.now) }
    requires few { 1 + dups_of (tree_of p.now) + dups_of (tree_of q.now) < 2 ^ 32 }
    requires left_fit { IsFit st.old.maxes (tree_of p.now) }
    requires right_fit { IsFit st.old.maxes (marked_from (tree_of q.now) bound) }
    ensures { IfOk result (λ b. (fields : FieldTable) → IsOver fields st.old
        → IsAutomatonOfBoth fields st.new b.states b.left b.right (tree_of p.now)
        (marked_from (tree_of q.now) bound)) }
{
    let q = marked(st.alloc(), q, bound)?;
    automaton_of_both(st, p, &q)
}

/// Two policies compared by their automaton; labels below `bound` are the left one's.
fn compare_by_levels(st: &mut Store, both: &Both, bound: usize) -> Result<Compared, AllocError>
    requires automaton { (fields : FieldTable) × (p : Policy) × (q : Policy)
        × IsAutomatonOfBoth fields st.old both.now.states both.now.left both.now.right p q
        × (bound ≡ 1 + dups_of p) }
    ensures { IfOk result (λ r. (fields : FieldTable) (p q : Policy)
        → IsAutomatonOfBoth fields st.old both.now.states both.now.left both.now.right p q
        → bound ≡ 1 + dups_of p
        → IsInRange p fields → IsInRange q fields → IsComparison fields p q r) }
{
    let mut ss = Sets::new(st.alloc());
    let mut lv = levels_of_both(st, &mut ss, both, bound)?;
    ss.differ();
    if !lv.levels.broken() {
        let certificate = certificate_of(st, &ss, &lv.levels)?;
        return Ok(Compared::Related(certificate));
    }
    st.laws();
    let found = least_history(
        st,
        &mut ss,
        both.states.as_slice(),
        &lv.levels,
        &mut lv.goal,
    )?;
    Ok(Compared::Broken(found))
}
