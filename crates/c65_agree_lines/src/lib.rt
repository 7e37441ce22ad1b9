//! The lines of statements and functions are those of their parts.
#![tactic(auto)]

mod laws;

pub use laws::{
    all_stand, functions_are_listed, functions_give_their_results, parts_stand,
    segments_are_placed, statements_are_listed, turns_are_counted, turns_stand,
};
