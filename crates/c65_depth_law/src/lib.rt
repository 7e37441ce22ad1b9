//! Laws of stack certificates.
#![tactic(auto)]

mod laws;

pub use laws::{checked_is_covered, rounds_are_least, settled_numbers_cover};
