//! Laws of the command `depth`: where it says that a program fits, its numbers cover it, and no state of its meaning is
//! too deep.
#![tactic(auto)]

mod laws;

pub use laws::{fitting_is_reported, no_reported_state_is_deep};
