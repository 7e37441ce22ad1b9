//! The conditions of #if and #elif: their arithmetic, their expressions, and their lines (C90 6.8.1).
#![tactic(auto)]

mod controlling;
mod expression;
mod value;

pub use controlling::condition_line;
