//! Calls in expressions of functions that take further arguments.
#![tactic(auto)]

mod laws;

pub use laws::{
    further_arguments_are_passed, further_functions_may_be_reached,
    further_named_calls_are_expressions, further_named_calls_do,
    further_pointer_calls_are_expressions, further_pointer_calls_do,
};
