//! Laws of the code of a program, on which the laws of the optimiser rest. The statements stand in specs/; each is the contract of a
//! function that does nothing.
#![tactic(auto)]

mod laws;

pub use laws::literals_are_constant;
