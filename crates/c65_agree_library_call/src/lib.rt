//! Calls of the library's functions, by name and through a pointer, do what their steps of the meaning do.
#![tactic(auto)]

mod laws;

pub use laws::{library_calls_are_followed, printf_calls_are_followed};
