//! Reading and writing with faults that are counted: what can be read and written, in memory and at
//! the edge of the program, and the calls that read all and write all.
#![tactic(auto)]

mod by_piece;
mod edge;
mod memory;
mod traits;
mod whole;

pub use by_piece::{LONGEST, PieceError, Taken, next_piece};
pub use edge::{StdSink, StdSource};
pub use memory::{CountSink, MemSink, MemSource, NoMemory, PlainSource};
pub use traits::{Failed, Sink, Source};
pub use whole::{ReadError, WriteFault, read_all, write_all};
