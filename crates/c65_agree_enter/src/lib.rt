//! A function is entered: its parameters begin where the arguments of the call lie, and its first statement may begin.
#![tactic(auto)]

mod laws;

pub use laws::{
    arguments_lie_at_homes, callers_may_enter, calls_are_entered, entries_enter, entries_keep,
    parameters_begin,
};
