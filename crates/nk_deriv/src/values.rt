//! Parts: what a policy, or what is left of it after a dup, does up to its first record.
use nk_field::List;
use nk_policy::Pol;

/// A policy up to its first record. No policy in it has a dup or a link literal.
#[derive(Debug, Drop)]
pub struct Part {
    /// Ends where the policy ends without a record.
    pub free: Pol,
    /// Each ends at the packets that the policy records first at the dup with this label.
    pub legs: List<(Pol, u32)>,
}

/// A policy's part, and those of what is left of it after each of its dups.
#[derive(Debug, Drop)]
pub struct Parts {
    /// The part of the policy itself.
    pub first: Part,
    /// For each dup, in text order, its label and the part of what is left of the policy after it.
    pub after: List<(u32, Part)>,
}
