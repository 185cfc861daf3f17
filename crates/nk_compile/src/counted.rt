//! Printed tables with what is counted of their policy.
use nk_table::Tables;

/// The printed tables of a policy, and how many tag sets it has.
#[derive(Drop)]
pub struct Counted {
    /// The tables.
    pub tables: Tables,
    /// The number of the policy's tag sets.
    pub tag_sets: u64,
}
