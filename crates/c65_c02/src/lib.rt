//! The rules for the 65C02: two lines in one that the 6502 lacks.
#![tactic(auto)]

mod find;
mod processor;
mod samples;
mod short;

pub use processor::optimise_c02;
pub use samples::{worked_pointers, worked_steps, worked_zeros};

#[cfg(test)]
mod tests;
