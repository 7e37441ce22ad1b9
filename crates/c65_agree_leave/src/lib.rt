//! A function is left: its lines do the step that leaves a call, and its caller goes on.
#![tactic(auto)]

mod laws;

pub use laws::{calls_are_left, returns_are_followed};
