//! The rules on arithmetic, comparisons and flags: lines that change nothing that is read, and two masks in one.
#![tactic(auto)]

mod arith;
mod conditions;
mod facts;
mod find;
mod joined;
mod operations;
mod samples;

pub use arith::optimise_arith;
pub use samples::{worked_bytes, worked_flags};

#[cfg(test)]
mod tests;
