//! Certificates of equality: what they are, and the printed one; the automaton and the levels of two policies together; and the
//! comparison of two policies, with the printed certificate or the least history of one alone.
#![tactic(auto)]

mod certificate;
mod compared;
mod comparison;
mod leveling;
mod pairing;
mod printed;
mod written;

pub use certificate::{CertPart, Certificate, Verdict};
pub use compared::Compared;
pub use comparison::{compare_owned, compare_policies, owned_automaton};
pub use leveling::{LevelsOfBoth, levels_of_both, start_alone};
pub use pairing::{Both, automaton_of_both, number_after};
pub use printed::certificate_of;
pub use written::both_written;
