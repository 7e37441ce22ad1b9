//! What main takes and gives.
#![tactic(auto)]

mod laws;

pub use laws::{mains_give_ints, mains_take_arguments};
