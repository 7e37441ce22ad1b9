//! The program that `gen` compiles: functions that mix a number, and a main function that calls each of them.
#![tactic(auto)]

mod source;

pub use source::biggen;
