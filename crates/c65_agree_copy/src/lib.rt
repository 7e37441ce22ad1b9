//! A routine that copies does what the steps of the meaning do.
#![tactic(auto)]

mod laws;

pub use laws::{copies_are_followed, copies_run, library_copies_run};
