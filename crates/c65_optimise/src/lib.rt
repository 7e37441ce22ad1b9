//! The optimiser over a whole code: the rules that are built, function by function.
#![tactic(auto)]

mod families;
mod functions;

pub use families::Family;
pub use functions::optimise;
