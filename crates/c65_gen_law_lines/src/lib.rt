//! Laws of the lines that the generator writes: of their labels, their size, their rows and the software stack.
#![tactic(auto)]

mod laws;

pub use laws::{
    calls_are_counted, expressions_are_fit, expressions_are_small, expressions_keep_the_stack,
    expressions_own_their_labels, frames_are_small, functions_are_segments, functions_are_small,
    homes_are_apart, programs_are_nmos, programs_are_small, statements_keep_the_stack,
};
