//! Laws of what is known before lines: it is so wherever a run comes. The statements stand in specs/; each is the contract of a
//! function that does nothing.
#![tactic(auto)]

mod laws;

pub use laws::{notes_are_handed_on, notes_are_true};
