//! The functions of a plain program that take further arguments have what calls ask of them.
#![tactic(auto)]

mod laws;

pub use laws::{
    accepted_bodies_serve_further_calls, accepted_further_arguments_are_taken,
    bodies_serve_further_calls, further_calls_have_callees, further_frames_are_within,
    further_functions_may_be_called,
};
