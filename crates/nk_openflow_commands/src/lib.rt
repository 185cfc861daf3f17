//! What `nk_flows` answers: the lines that Open vSwitch loads of a switch's groups or flows, of a table text.
#![tactic(auto)]

mod answer;
mod laws;
mod print;
mod reply;

pub use laws::an_input_has_one_answer;
pub use print::print_lines;
