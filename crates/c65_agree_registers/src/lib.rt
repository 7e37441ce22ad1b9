//! The lines of the entry of a function check the stacks, where they do, and bring its parameters to regbank.
#![tactic(auto)]

mod laws;

pub use laws::{entries_move, small_stacks_end, stacks_are_checked};
