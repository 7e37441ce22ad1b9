//! The law that a certificate that covers a program keeps its runs within both stacks.
#![tactic(auto)]

mod laws;

pub use laws::fitting_is_never_deep;
