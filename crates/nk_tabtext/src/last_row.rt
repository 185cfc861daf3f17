//! What a writer remembers of the row that was put last.
ghost use Rattle.nk_field.specs.Packet.{FieldTable};
ghost use Rattle.nk_tabtext.specs.Remembered.{RemembersSome};

use crate::last_bucket::LastBucket;
use crate::last_matches::LastMatches;
use std::alloc::Global;

/// The matches of the row that was put last, and the bucket that was put last.
#[derive(Drop)]
pub(crate) struct LastRow {
    pub(crate) matches: LastMatches,
    pub(crate) bucket: LastBucket,
}

impl LastRow {
    /// No row yet.
    pub(crate) fn new(alloc: Global) -> LastRow
        ensures { (fs : FieldTable) → RemembersSome fs result }
    {
        let matches = LastMatches::new(alloc);
        let bucket = LastBucket::new(alloc);
        LastRow { matches, bucket }
    }
}
