//! Queries, and what is answered to one.
use nk_cert::Certificate;
use nk_witness::Found;

/// A query of a program's policies: which histories a policy may not have (reachability and waypoints: Anderson et al., POPL
/// 2014). Policies are told by their names, in the order of the command; all but the first are to be predicates.
#[derive(Clone, Copy)]
pub enum Query<'a> {
    /// No history starts at a packet of `from` and ends at one of `target`: reachability, asked the other way.
    Apart {
        /// The policy's name.
        name: &'a str,
        /// The name of the predicate of the packets that histories start from.
        from: &'a str,
        /// The name of the predicate of the packets that they may not end at.
        target: &'a str,
    },
    /// Each history that starts at a packet of `from` and ends at one of `target` has a packet of `middle`: the first one, one
    /// that it records, or the last.
    Waypoint {
        /// The policy's name.
        name: &'a str,
        /// The name of the predicate of the packets that histories start from.
        from: &'a str,
        /// The name of the predicate of the packets of which each history has one.
        middle: &'a str,
        /// The name of the predicate of the packets that histories end at.
        target: &'a str,
    },
}

/// Whether a history breaks a query.
#[derive(Drop)]
pub enum Answer {
    /// No history does: the printed certificate that the question does the same as `drop`, which shows it.
    Holds(Certificate),
    /// The least history that breaks the query, with the packet that it starts from. Its side is the left one, the
    /// question's.
    Breaks(Found),
}
