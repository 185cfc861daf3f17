//! By which tables a packet goes while new ones take the old ones' place.

/// Which of the two tables an injection goes by.
#[derive(Clone, Copy, PartialEq, Eq, Debug)]
pub enum Version {
    /// The old tables.
    Old,
    /// The new tables.
    New,
}
