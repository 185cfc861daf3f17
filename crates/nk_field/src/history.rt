//! Histories.
ghost use Rattle.std.specs.Prelude.{◌≡◌, IfOk};

use crate::list::List;
use crate::packet::Packet;
use std::alloc::AllocError;

/// A history: the recorded packets, oldest first, and the last packet. Histories are ordered by their records in turn,
/// then by the last packet.
#[derive(PartialEq, Eq, PartialOrd, Ord, Debug)]
pub struct History {
    /// The recorded packets, oldest first.
    pub records: List<Packet>,
    /// The packet at the end.
    pub last: Packet,
}

impl Drop for History {
    fn drop(self) {
        let Self {
            records: _,
            last: _,
        } = self;
    }
}

impl History {
    /// A copy of the history. The only error is that memory ran out.
    pub fn copy(&self) -> Result<History, AllocError>
        ensures { IfOk result (λ h. h ≡ self.now) }
    {
        let records = self.records.copy()?;
        Ok(History {
            records,
            last: self.last,
        })
    }
}
