//! The rows of a switch's table for one tag. They do with each packet of the switch what the tag's state does with it,
//! with one bucket for each result. Laws: of the rows that match a packet exactly one has the highest priority, and it
//! has the buckets of the packet's results; or no row matches, and there is no result.
#![tactic(auto)]

pub mod laws;
mod out_buckets;
mod row;
mod rows;
mod sink;
mod walk;

ghost use Rattle.nk_extract.specs.Example.{WorkedRules, WorkedIntervals};

pub use out_buckets::{bucket, buckets};
pub use rows::rows_to;
pub use sink::RowSink;

/// Small trees and their rows, among them a printed drop row, and intervals of values as blocks.
pub fn worked_rules()
    ensures values { WorkedRules }
    ensures intervals { WorkedIntervals }
{}
