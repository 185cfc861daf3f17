//! Many packets in flight at once: the caller says which packet comes in and which copy its switch handles next.
#![tactic(auto)]

mod copies;
mod drawn;
mod drawn_updates;
mod flight;
mod hop_list;
mod hops;
pub mod laws;
mod packet_pool;
mod progress;
mod stages;
mod updating;
mod versions;
mod waiting;

pub use copies::{Flying, Left};
pub use drawn::fly;
pub use drawn_updates::update;
pub use flight::Flight;
pub use updating::UpdateFlight;
pub use versions::Version;
