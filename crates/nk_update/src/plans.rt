//! Plans: the tables of each switch before and after each of its plan steps.
use nk_field::{Fields, List};
use nk_table::Table;
use nk_topo::Topo;

/// By which tables a running network goes over from old tables to new ones.
pub struct Plan {
    /// The fields of both.
    pub fields: Fields,
    /// The topology of both.
    pub topo: Topo,
    /// The greatest of the old tags.
    pub old_tags: u64,
    /// The tables of each declared switch.
    pub switches: List<PlanTables>,
}

impl Drop for Plan {
    fn drop(self) {
        let Self {
            fields: _,
            topo: _,
            old_tags: _,
            switches: _,
        } = self;
    }
}

/// The four tables of a switch: the old one, and those after each of its three plan steps.
pub struct PlanTables {
    /// The switch.
    pub switch: u16,
    /// The old table.
    pub before: Table,
    /// With the new tagged rows.
    pub added: Table,
    /// With the new rows of tag 0 in the old ones' place.
    pub replaced: Table,
    /// Without the old tagged rows.
    pub removed: Table,
}

impl Drop for PlanTables {
    fn drop(self) {
        let Self {
            switch: _,
            before: _,
            added: _,
            replaced: _,
            removed: _,
        } = self;
    }
}
