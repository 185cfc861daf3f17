//! Pictures of networks: the Graphviz text of a program's switches, ports and links, with a way through them that is
//! numbered packet by packet.
#![tactic(auto)]

mod drawing;
mod top;
mod way;

pub use nk_reply::Status;
pub use top::draw;
