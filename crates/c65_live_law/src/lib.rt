//! A law of what is live: any lines of a function have a table of it. The statement stands in specs/; it is the contract of a function
//! that does nothing.
#![tactic(auto)]

mod laws;

pub use laws::live_tables_exist;
