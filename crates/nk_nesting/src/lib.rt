//! Laws, and no code: `too deep` is the 257th parenthesis or `~` that is open at once, counted in the text.
#![tactic(auto)]

pub mod laws;
