//! A law of the machine on lines that needs the row of every routine. The statement stands in specs/; it is the contract of a function
//! that does nothing.
#![tactic(auto)]

mod laws;

pub use laws::never_sticks;
