//! Tests of the public calls for diagrams, automata and levels, each once on the way that it is meant for.
#![tactic(auto)]

#[cfg(test)]
mod algebra;
#[cfg(test)]
mod auto;
#[cfg(test)]
mod automata;
#[cfg(test)]
mod by_parts;
#[cfg(test)]
mod cases;
#[cfg(test)]
mod determ;
#[cfg(test)]
mod generated;
#[cfg(test)]
mod group;
#[cfg(test)]
mod levels;
#[cfg(test)]
mod policies;
#[cfg(test)]
mod sets;
#[cfg(test)]
mod star;
#[cfg(test)]
mod store;
