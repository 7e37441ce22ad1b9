//! The run of a well typed expression, statement or program, or of a call of the library, never comes to trees or values that do not fit one
//! another. The laws stand in specs/; each is the contract of a function that does nothing.
#![tactic(auto)]

mod laws;

pub use laws::{expressions_fit, initial_store_fits, library_fits, programs_fit, statements_fit};
