//! Certificates, and what is found of one.
use nk_field::List;
use nk_policy::Pol;

/// A certificate that two policies do the same: rows of packets at which both can be at their starts, or after the
/// same dups. Where each row meets its four parts, the policies give the same histories on every packet.
pub struct Certificate {
    /// The predicate of the start row: at these packets both policies stand at their starts.
    pub start: Pol,
    /// The later rows: the numbers of dups of either policy, in any order and any number of times, with the predicate
    /// of the packets at which runs of both can be after these dups. A row may have no number, and several rows may have
    /// the same numbers.
    pub rows: List<(List<u64>, Pol)>,
}

impl Drop for Certificate {
    fn drop(self) {
        let Self { start: _, rows: _ } = self;
    }
}

/// A part of a row, in the order in which parts are looked at.
#[derive(Clone, Copy, PartialEq, Eq, Debug)]
pub enum CertPart {
    /// Each number of the row is a dup of one of the policies.
    Position,
    /// The start row has all packets.
    Start,
    /// From each packet of the row both policies end at the same packets without a record.
    Finals,
    /// Whatever packet is recorded next from a packet of the row, some row has exactly the numbers of the dups that
    /// record it, and has that packet.
    Hop,
}

/// What is found of a certificate.
#[derive(Clone, Copy, PartialEq, Eq, Debug)]
pub enum Verdict {
    /// Each row meets all parts.
    Valid,
    /// A row fails, and those before it meet all parts.
    Invalid {
        /// The row's number, the start row being 1.
        row: u64,
        /// The first part that the row fails.
        part: CertPart,
    },
}
