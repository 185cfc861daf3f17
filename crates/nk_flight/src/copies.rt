//! Copies in flight and histories that have left.
use nk_field::{History, List, Packet};

/// A copy of a packet in flight.
#[derive(Drop)]
pub struct Flying {
    /// The number of the packet's injection.
    pub number: u64,
    /// What the copy has recorded, oldest first.
    pub records: List<Packet>,
    /// Where it is.
    pub packet: Packet,
}

/// A history with which a copy has left.
pub struct Left {
    /// The number of the packet's injection.
    pub number: u64,
    /// The history.
    pub history: History,
}

impl Drop for Left {
    fn drop(self) {
        let Self {
            number: _,
            history: _,
        } = self;
    }
}
