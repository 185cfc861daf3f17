//! The premises of the laws on tables and on rows can hold where something happens: two switches and one link, and a tree
//! whose rows have a drop row and a group.
ghost use Rattle.nk_worked.specs.TheirTable.{IsPrintedThere, IsAcceptedThere, LeavesAfterOneCrossing, ArePrintedSo};
ghost use Rattle.nk_worked.specs.WorkedRows.{HasDropRowAndGroup};

/// Two switches and one link: the tables are those that are printed for a policy over the link, which is accepted and has
/// one tag. A packet that enters leaves after one crossing, and not before. The tables have this text.
pub fn two_switches_and_one_link()
    ensures compilable { IsPrintedThere }
    ensures accepted { IsAcceptedThere }
    ensures leaves { LeavesAfterOneCrossing }
    ensures text { ArePrintedSo }
{}

/// A tree whose rows have one that drops, and a group that two of them share.
pub fn a_drop_row_and_a_group()
    ensures { HasDropRowAndGroup }
{}
