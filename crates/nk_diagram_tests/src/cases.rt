//! What is tested, each case over a store and sets of its own.
use crate::{algebra, auto, by_parts, determ, levels, sets, star, store};
use nk_determ::Sets;
use nk_field::Fields;
use nk_store::Store;
use std::alloc::{AllocError, Global};
use std::test::Fail;

/// The place of the one declared field, `dst`.
pub const DST: u8 = 2;

/// What is tested.
#[derive(Clone, Copy)]
enum Case {
    /// `sw:=1` and then `sw=0` passes nothing; `sw=0` and then `sw:=1` passes the packet with `sw` 0.
    OrderMatters,
    /// Of `sw=0` and `sw=0` aimed at 5 together a packet with `sw` 0 goes to 0 and to 5; where `sw` is set to 1, `~sw=0`
    /// passes it.
    LeavesAreUnited,
    /// `dst=0;dst:=1 + ~dst=0` makes a `dst` of 0 one of 1, and leaves one of 2 as it is.
    PolicyAtTwoPackets,
    /// `dup*` ends at the packet itself without a record, or it records the packet at its dup.
    StarOfADup,
    /// The automaton of `dup;dst:=1` has two states.
    ByPolicy,
    /// The automaton of `dup;dst:=1`, made by the policy's parts, has two states.
    ByParts,
    /// At `dst` 1 both acts of `id + dst:=1` are one that assigns nothing, at `dst` 0 they are two.
    UnchangedGoes,
    /// A diagram whose acts are exact means the same as it does once they are made so again.
    ExactStays,
    /// What two states record is one out, to the set of both labels.
    BothLabelsFollow,
    /// The packets whose `dst` is neither 0 nor 2 are printed by their values.
    OddIsPrinted,
    /// `dst:=1` makes of the odd values the value 1, and brings each packet to it.
    ActMakesASet,
    /// `(dst=0;dst:=1 + dst=1;dst:=2)*` makes three packets of one with `dst` 0.
    StepsAreFollowed,
    /// Outs in any order and number are one leaf, which stands once.
    EqualLeavesAreOne,
    /// The sets of a ring are two.
    RingIsNumbered,
}

/// All cases.
const CASES: [Case; 14] = [
    Case::OrderMatters,
    Case::LeavesAreUnited,
    Case::PolicyAtTwoPackets,
    Case::StarOfADup,
    Case::ByPolicy,
    Case::ByParts,
    Case::UnchangedGoes,
    Case::ExactStays,
    Case::BothLabelsFollow,
    Case::OddIsPrinted,
    Case::ActMakesASet,
    Case::StepsAreFollowed,
    Case::EqualLeavesAreOne,
    Case::RingIsNumbered,
];

impl Case {
    /// Whether it is as it should be, in a store over these fields.
    fn holds_in(self, fields: &Fields, st: &mut Store, ss: &mut Sets) -> Result<bool, AllocError> {
        match self {
            Case::OrderMatters => algebra::order_matters(st),
            Case::LeavesAreUnited => algebra::leaves_are_united(st),
            Case::PolicyAtTwoPackets => auto::is_moved_or_kept(st),
            Case::StarOfADup => auto::ends_or_records(st),
            Case::ByPolicy => by_parts::is_by_policy(st),
            Case::ByParts => by_parts::is_by_parts(st),
            Case::UnchangedGoes => determ::unchanged_goes(st),
            Case::ExactStays => determ::exact_stays(st),
            Case::BothLabelsFollow => determ::both_labels_follow(st, ss),
            Case::OddIsPrinted => sets::odd_is_printed(fields, st),
            Case::ActMakesASet => sets::act_makes_a_set(st),
            Case::StepsAreFollowed => star::steps_are_followed(st),
            Case::EqualLeavesAreOne => store::equal_leaves_are_one(st),
            Case::RingIsNumbered => levels::are_two(st, ss),
        }
    }
}

/// Whether a case is as it should be, over the field `dst` from 0 to 3.
fn holds(alloc: Global, case: Case) -> Result<bool, Fail> {
    let mut fields = Fields::new(alloc)?;
    fields.add("dst", 3)?;
    holds_over(alloc, case, &fields)
}

/// Whether it is as it should be over these fields, with nothing in the store before it.
fn holds_over(alloc: Global, case: Case, fields: &Fields) -> Result<bool, Fail> {
    let mut st = Store::new(alloc, fields)?;
    Ok(holds_beside(case, fields, &mut st)?)
}

/// Whether it is as it should be in this store, with no sets before it.
fn holds_beside(case: Case, fields: &Fields, st: &mut Store) -> Result<bool, AllocError> {
    let mut ss = Sets::new(st.alloc());
    case.holds_in(fields, st, &mut ss)
}

#[test]
fn all_cases(rt: HostRuntime) -> Result<(), Fail> {
    for (place, case) in CASES.iter().enumerate() {
        assert!(rt; holds(rt.alloc(), *case)?, "case {place}");
    }
    Ok(())
}
