//! The frame of a called function takes the arguments of its call where they come.
#![tactic(auto)]

mod laws;

pub use laws::{
    accepted_arguments_are_taken, accepted_bodies_serve_calls, bodies_give_wider_results,
    bodies_serve_calls, calls_have_callees, calls_take_what_is_given, frames_are_functions,
    frames_are_within_their_objects, frames_have_moves, frames_have_slots, frames_take_parameters,
    functions_may_be_called, refused_calls_are_expressions, results_have_shapes,
    taken_arguments_have_sizes,
};
