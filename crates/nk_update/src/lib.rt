//! Two policies' tables, the new ones put in the old ones' place while packets are in flight: plan steps, switch by switch.
#![tactic(auto)]

mod groups;
pub mod laws;
mod planning;
mod plans;
mod rows;
mod tables;

pub use planning::plan;
pub use plans::{Plan, PlanTables};
