//! Levels as a value.
ghost use Rattle.std.specs.Prelude.{◌≡◌};

use crate::sets::SetId;
use nk_field::List;
use nk_store::Id;

/// A walk of an automaton, level by level: level k has each set state with the packets that are
/// first met under it after k records.
pub struct Levels {
    /// The levels, the level of the start first. Each is a list of a set's number and its packets, each set once.
    pub levels: List<List<(SetId, Id)>>,
    /// Whether they ended at a level with a violation.
    broken: bool,
}

impl Drop for Levels {
    fn drop(self) {
        let Self {
            levels: _,
            broken: _,
        } = self;
    }
}

impl Levels {
    /// These levels, and whether they ended at a level with a violation.
    pub fn new(levels: List<List<(SetId, Id)>>, broken: bool) -> Levels
        ensures levels { result.levels ≡ levels }
        ensures broken { result.broken ≡ broken }
    {
        Levels { levels, broken }
    }

    /// Whether the levels ended at a violation: then the last level has one, and no level before it.
    pub fn broken(&self) -> bool
        ensures { result ≡ self.now.broken }
    {
        self.broken
    }
}
