//! The values of C's integer types, and what its operators make of them.
#![tactic(auto)]

mod arithmetic;
mod types;

pub use arithmetic::{add, convert, div, mul, rem, shl, shr, sub, wrap};
pub use types::IntType;
