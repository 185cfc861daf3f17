//! Generated programs: networks of 2 to 1,000 switches with policies over them. Size and seed alone decide the
//! text.
#![tactic(auto)]

mod drawn;
mod network;
mod program;
mod text;

pub use program::generate;
