//! The grammar of table texts: declarations, and the tables of switches with their groups and rows, read token by token.
//!
//! ```text
//! text    : tables NUMBER decl* table*
//! decl    : field NAME NUMBER
//!         | tag NAME
//!         | switch NUMBER ports NUMBER { , NUMBER }
//!         | link NUMBER : NUMBER -> NUMBER : NUMBER
//! table   : table NUMBER group* row*
//! group   : group NUMBER = bucket { bucket }
//! row     : row NUMBER : match* -> target
//! match   : NAME = NUMBER | NAME = NUMBER / NUMBER
//! target  : bucket | group NUMBER | drop
//! bucket  : [ set* out way ]
//! set     : NAME := NUMBER
//! way     : NUMBER | in
//! ```
//!
//! A `State` says what may come next and what a token tells there, and keeps nothing of what was read. The laws say that it goes
//! along with the grammar, and that what its tokens tell is what is written, with each name and each number's line. What that
//! means, and which rules it has to keep, is said by the crates above.
#![tactic(auto)]

mod laws;
mod stage;
mod states;
mod written;

pub use laws::{
    a_text_has_one_reading, states_follow_the_grammar, states_tell_what_is_written,
    texts_are_answered, texts_are_read,
};
pub use states::{BucketState, LinkState, RowState, State, Tells};
pub use written::ReadError;
