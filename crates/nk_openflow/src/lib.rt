//! Tables as the lines that Open vSwitch loads: flows and groups of OpenFlow 1.3, as `ovs-ofctl` reads them from a file.
//!
//! Each field of a table is mapped to a match field of Open vSwitch. What a line is, and which table can't be written so, is
//! defined in the words of the manual pages ovs-fields(7), ovs-actions(7) and ovs-ofctl(8).
#![tactic(auto)]

mod actions;
mod base;
mod hexadecimal;
mod lines;
mod mapping;
mod match_field;
mod matches;
mod numbers;
mod refusals;
mod rules;
mod values;
mod words;

pub use base::Base;
pub use lines::{push_groups, push_rows};
pub use mapping::{Mapping, MappingError, mapping_of};
pub use match_field::MatchField;
pub use refusals::{Place, RuleFault, WordFault, rule_line, text_line, word_line};
pub use rules::first_fault;
pub use words::{Head, Part, first_word_fault, head_of};
