//! A function is called: the step of a call, and the way from its line through the function to the line behind it.
#![tactic(auto)]

mod laws;

pub use laws::{
    calls_are_meant, calls_by_name_are_followed, calls_by_name_enter,
    calls_through_pointers_are_followed, calls_through_pointers_enter, functions_are_followed,
    pointers_are_put,
};
