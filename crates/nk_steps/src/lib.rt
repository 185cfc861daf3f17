//! The steps of a set of labels: the diagram of a set state, at some packets alone.
#![tactic(auto)]

mod by_act;
mod local;
mod plain;
mod single;
mod steps;
mod together;

pub use local::{each_once, local_state};
