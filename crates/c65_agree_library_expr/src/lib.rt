//! Calls of the library's functions, by name and through pointers, do their work in expressions.
#![tactic(auto)]

mod laws;

pub use laws::{library_functions_may_be_reached, named_library_calls_are_expressions};
