//! A call in an expression, by name or through a pointer, does its work, from its arguments to its value.
#![tactic(auto)]

mod laws;

pub use laws::{
    accepted_calls_agree, lined_functions_may_be_reached, named_calls_are_expressions,
    named_calls_do, pointer_calls_are_expressions, pointer_calls_do,
    reaching_calls_are_expressions, reaching_calls_do, scalars_come_back,
};
