//! The lines that store a number put its cells.
#![tactic(auto)]

mod laws;

pub use laws::{assignments_are_followed, numbers_are_stored, values_are_assigned};
