//! The forms in which people write numbers: IPv4 addresses, hardware addresses and hexadecimal digits. A text in a form is read as its
//! number, and a number is written in a form.
#![tactic(auto)]

mod fault;
mod forms;
mod numbers;
mod texts;
mod writing;

pub use fault::{Cause, Fault, Stop, WordStop};
pub use forms::{
    Atom, address_of, around_first, atom_of, block_size, colons, dropped, first_of, is_dotted,
    last_of, place_of, place_of_dots,
};
pub use numbers::{is_digit, is_white, number_within};
pub use texts::{put_address, put_hardware, put_hexadecimal};
pub use writing::{put, put_number};
