//! Laws of the runtime: the check of the stacks does what its row says.
#![tactic(auto)]

mod laws;

pub use laws::stacks_are_checked;
