//! What is found of a certificate of two policies.
ghost use Rattle.std.specs.Prelude.{◌≡◌, ◌+◌, ◌<◌, ◌^◌, true, IfOk, All, length};
ghost use Rattle.nk_field.specs.Packet.{FieldTable};
ghost use Rattle.nk_policy.specs.Policy.{Policy, is_predicate, dups_of};
ghost use Rattle.nk_policy.specs.Ranges.{IsInRange};
ghost use Rattle.nk_policy.specs.Tree.{tree_of};
ghost use Rattle.nk_store.specs.StoreState.{IsOver, Grows};
ghost use Rattle.nk_determ.specs.Sets.{SetsGrow};
ghost use Rattle.nk_names.specs.Complements.{NegatesPredicates};
ghost use Rattle.nk_auto.specs.Continued.{IsFit};
ghost use Rattle.nk_cert.specs.Levelled.{IsAutomatonOfBoth};
ghost use Rattle.nk_cert.specs.Together.{AreNumbered};
ghost use Rattle.nk_cert.specs.Verdicts.{HasPredicates, IsFinding};
ghost use Rattle.nk_cert.specs.Values.{certificate_value, finding_of};
ghost use Rattle.nk_check.specs.Judged.{IsJudge};

use crate::entries::{row_entries, start_entry};
use crate::judge::{Judge, judge_rows};
use nk_cert::{Both, Certificate, Verdict, automaton_of_both, number_after};
use nk_determ::Sets;
use nk_field::Fields;
use nk_goal::Entries;
use nk_policy::Pol;
use nk_reach::OneSide;
use nk_store::Store;
use std::alloc::{AllocError, Global};

/// What is found of a certificate of two policies: that each row meets its four parts, or the first row that fails, and
/// the first part in which it does. The left policy's dups are numbered from 1 on in text order and the right one's go on
/// from there. The rows are looked at as sets: positions need not ascend, and several rows may have one set. The only
/// error is that memory ran out.
pub fn check_policies(
    alloc: Global,
    fields: &Fields,
    left: &Pol,
    right: &Pol,
    certificate: &Certificate,
) -> Result<Verdict, AllocError>
    requires numbered { AreNumbered (tree_of left.now) (tree_of right.now) }
    requires few { 1 + dups_of (tree_of left.now) + dups_of (tree_of right.now) < 2 ^ 32 }
    requires left_complements { NegatesPredicates (tree_of left.now) }
    requires left_range { IsInRange (tree_of left.now) fields.now }
    requires right_complements { NegatesPredicates (tree_of right.now) }
    requires right_range { IsInRange (tree_of right.now) fields.now }
    requires predicates { HasPredicates (certificate_value certificate.now) }
    ensures { IfOk result (λ v.
        IsFinding fields.now (tree_of left.now) (tree_of right.now)
        (certificate_value certificate.now) (finding_of v)) }
{
    let mut st = Store::new(alloc, fields)?;
    let mut ss = Sets::new(alloc);
    verdict_in(&mut st, &mut ss, fields, left, right, certificate)
}

/// What is found of a certificate, by diagrams of a store.
fn verdict_in(
    st: &mut Store,
    ss: &mut Sets,
    fields: &Fields,
    left: &Pol,
    right: &Pol,
    certificate: &Certificate,
) -> Result<Verdict, AllocError>
    requires over { IsOver fields.now st.old }
    requires numbered { AreNumbered (tree_of left.now) (tree_of right.now) }
    requires few { 1 + dups_of (tree_of left.now) + dups_of (tree_of right.now) < 2 ^ 32 }
    requires left_fit { IsFit st.old.maxes (tree_of left.now) }
    requires right_fit { IsFit st.old.maxes (tree_of right.now) }
    requires predicates { HasPredicates (certificate_value certificate.now) }
    ensures { IfOk result (λ v.
        IsFinding fields.now (tree_of left.now) (tree_of right.now)
        (certificate_value certificate.now) (finding_of v)) }
{
    let both = automaton_of_both(st, left, right)?;
    let bound = number_after(left) as usize;
    verdict_by(st, ss, both, bound, certificate)
}

/// What is found of a certificate, by the automaton of two policies; labels below `bound` are the left one's.
pub(crate) fn verdict_by(
    st: &mut Store,
    ss: &mut Sets,
    both: Both,
    bound: usize,
    certificate: &Certificate,
) -> Result<Verdict, AllocError>
    requires automaton { (fields : FieldTable) × (p : Policy) × (q : Policy)
        × IsAutomatonOfBoth fields st.old both.states both.left both.right p q
        × (bound ≡ 1 + dups_of p) }
    requires predicates { HasPredicates (certificate_value certificate.now) }
    ensures { IfOk result (λ v. (fields : FieldTable) (p q : Policy)
        → IsAutomatonOfBoth fields st.old both.states both.left both.right p q
        → bound ≡ 1 + dups_of p
        → IsFinding fields p q (certificate_value certificate.now) (finding_of v)) }
{
    let mut goal = OneSide::new(st, both.states.as_slice(), both.left, both.right, bound)?;
    let judge = judge_of(st, ss, both, certificate)?;
    ss.differ();
    st.laws();
    judge_rows(st, ss, &judge, &mut goal, certificate.rows.as_slice())
}

/// What the rows of a certificate are judged by.
fn judge_of(
    st: &mut Store,
    ss: &mut Sets,
    both: Both,
    certificate: &Certificate,
) -> Result<Judge, AllocError>
    requires states { 0 < length both.states }
    requires start { is_predicate (tree_of certificate.now.start) ≡ true }
    requires later { All (λ r. is_predicate (tree_of r.1) ≡ true) certificate.now.rows }
    ensures grows { Grows st.old st.new }
    ensures sets { SetsGrow ss.old ss.new }
    ensures states { IfOk result (λ j. j.states ≡ both.states) }
    ensures ok { IfOk result
        (λ j. IsJudge st.new ss.new (length j.states)
        (certificate_value certificate.now) j.start j.entries j.told) }
{
    let Both { states, .. } = both;
    let start = start_entry(st, ss, &certificate.start, states.len())?;
    let entries = row_entries(st, ss, certificate.rows.as_slice(), states.len())?;
    let mut told = Entries::new(st.alloc());
    told.add_level(st, &entries)?;
    Ok(Judge {
        states,
        start,
        entries,
        told,
    })
}
