//! Laws of a linked image: the units of a code stand in its memory as the rows that follow them ask for it.
#![tactic(auto)]

mod laws;

pub use laws::{lines_are_apart, linked_codes_are_laid};
