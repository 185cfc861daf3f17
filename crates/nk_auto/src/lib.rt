//! The automaton of a policy, as diagrams: what the policy does from its start and from each of its dups on, up to the
//! next record.
#![tactic(auto)]

mod assignments;
mod by_parts;
mod by_value;
mod going_on;
mod guards;
mod nested;
mod one_field;
mod silence;
mod states;
mod values;
mod with_states;

pub use by_parts::automaton;
pub use silence::silent;
pub use states::policy_automaton;
pub use with_states::{continued, continued_with_states};
