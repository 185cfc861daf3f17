//! Numbers as people write them: addresses, prefixes and hexadecimal numbers in the place of plain numbers, and back.
#![tactic(auto)]

mod context;
mod cutter;
mod inward;
mod laws;
mod notation;
mod outward;
mod pieces;
mod telling;
mod top;
mod words;

pub use inward::Inward;
pub use laws::{
    addresses_are_read_back, lexemes_are_the_text, numbers_come_back, prefixes_are_read_back,
    ranges_are_read_back, texts_without_forms_stay, values_are_read_back,
};
pub use outward::Outward;
pub use top::translate_by_words;
