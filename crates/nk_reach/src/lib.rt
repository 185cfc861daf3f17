//! Levels over set states: every set of labels at every packet that is visited, by the least number of records, up to a goal.
#![tactic(auto)]

mod follow;
mod rounds;
mod search;
mod sides;

pub use rounds::next_level;
pub use search::levels;
pub use sides::OneSide;
