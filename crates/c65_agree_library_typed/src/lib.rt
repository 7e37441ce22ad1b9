//! Well typed calls of the library's functions pass what these take.
#![tactic(auto)]

mod laws;

pub use laws::{accepted_library_calls_fit, library_functions_have_types, typed_arguments_are_few};
