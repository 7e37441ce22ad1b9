//! The law of a linked code's runtime: each of its routines does what its row says.
#![tactic(auto)]

mod laws;

pub use laws::linked_runtimes_are_met;
