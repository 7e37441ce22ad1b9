//! How many values wait while the expressions of a function are evaluated.
#![tactic(auto)]

mod needs;

pub use needs::{greatest_need, need};
