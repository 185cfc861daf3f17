//! Laws of the rows that are printed for a reduced tree of bucket lists.
ghost use Rattle.nk_extract.specs.Chosen.{RowsGiveLeaves, RowsDiffer, RowsAreChosen};

/// At each packet with the tag, exactly one of the rows that match has the highest priority, and it has the
/// leaf's buckets; or no row matches, and the leaf is empty.
pub fn rows_give_leaves()
    ensures { RowsGiveLeaves }
{}

/// Two rows of one tag that match one packet differ in priority.
pub fn rows_differ()
    ensures { RowsDiffer }
{}

/// For each printed row there is a packet in range at which it is the row that acts.
pub fn rows_are_chosen()
    ensures { RowsAreChosen }
{}
