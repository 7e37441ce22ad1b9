//! What is known of registers, flags and bytes at each line of a function.
#![tactic(auto)]

mod holds;
mod index;
mod note;
mod noted;
mod registers;
mod rows;
mod samples;
mod ways;

pub use note::{Flag, Note, Tracked};
pub use noted::{Noted, annotate};
pub use samples::worked_notes;
pub use ways::update;
