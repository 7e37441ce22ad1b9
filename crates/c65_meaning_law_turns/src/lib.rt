//! A law of the meaning: a run between two turns is finite.
#![tactic(auto)]

mod laws;

pub use laws::turns_go_on;
