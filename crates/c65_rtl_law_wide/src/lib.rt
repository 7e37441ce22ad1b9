//! Laws of the runtime: the product and the divisions of 32 bits do what their rows say.
#![tactic(auto)]

mod laws;

pub use laws::{longs_are_divided, longs_are_multiplied, signed_longs_are_divided};
