//! Folding keeps the meaning of programs. The statements stand in specs/; each is the contract of a function that does nothing.
//! Beside them, small programs whose meaning is computed.
#![tactic(auto)]

mod laws;
pub mod samples;

pub use laws::{constants_settle, expressions_keep, folding_adds_nothing, folding_keeps};
