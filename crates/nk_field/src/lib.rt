//! Fields, packets, assignments (acts) and histories, and the list types that contracts see as
//! lists.
#![tactic(auto)]

mod act;
mod fields;
mod history;
pub mod laws;
mod list;
mod packet;
mod reading;
mod short;
mod texts;

pub use act::Act;
pub use fields::{Fields, FieldsError, MOST_FIELDS};
pub use history::History;
pub use list::List;
pub use packet::{Fid, PLACES, Packet};
pub use reading::{PacketError, read_packet};
pub use short::Short;
pub use texts::{history_text, packet_text};
