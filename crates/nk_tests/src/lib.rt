//! Tests of public calls, each once on the way that it is meant for: of texts, packets, policies and tables, of programs and
//! certificates, of flights and updates. Rows of words and bytes with what is answered stand in nk_rows.
//! They stand in a crate of their own, since what a test calls in its own crate is proved again with it.
#![tactic(auto)]

#[cfg(test)]
mod certificates;
#[cfg(test)]
mod feed;
#[cfg(test)]
mod field;
#[cfg(test)]
mod flights;
#[cfg(test)]
mod io;
#[cfg(test)]
mod lex;
#[cfg(test)]
mod names;
#[cfg(test)]
mod policy;
#[cfg(test)]
mod prefix;
#[cfg(test)]
mod programs;
#[cfg(test)]
mod tables;
#[cfg(test)]
mod topo;
#[cfg(test)]
mod updates;
