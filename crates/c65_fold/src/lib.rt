//! Integer constants among typed trees: what operators make of them, and folding (C90 6.3, 6.4).
#![tactic(auto)]

mod compute;
mod folding;
mod values;

pub use folding::fold;
pub use values::{constant, is_constant};
