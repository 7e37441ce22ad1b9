//! A function of a program has its lines, and they do the work of its body.
#![tactic(auto)]

mod laws;

pub use laws::{
    functions_do, functions_give_by_type, functions_have_ends, main_gives_a, mains_arguments_lie,
};
