//! Compilation: the tables of a policy of a program, named or not, and of two named ones for an update. Also sets of packets of a topology:
//! where packets start, and where they may not leave.
#![tactic(auto)]

mod children;
mod compilation;
mod counted;
mod edges;
mod ends;
pub mod laws;
mod numbered;
mod pair;
mod ports;
mod prepared;
mod refusal;
mod sets;
mod switch_tags;
mod tables;
mod tagging;
mod wrong_ends;

pub use compilation::{compile, compile_counted, compile_policy, hand_tables, number, tag_count};
pub use counted::Counted;
pub use edges::{off_edges, starts};
pub use ends::link_ends;
pub use nk_extract::RowSink;
pub use nk_group::TableSink;
pub use numbered::Numbered;
pub use pair::{TablePair, compile_pair};
pub use prepared::Prepared;
pub use refusal::{CompileError, Refusal};
pub use switch_tags::tags_at_switches;
pub use tables::prepare;
