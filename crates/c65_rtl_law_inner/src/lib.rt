//! Laws of the runtime: what a routine needs that is called within another one.
#![tactic(auto)]

mod laws;

pub use laws::{inner_pushes_are_met, inner_rows_are_met};
