//! A law of the table of what is live: it is closed. The statement stands in specs/; it is the contract of a function that does
//! nothing.
#![tactic(auto)]

mod laws;

pub use laws::live_tables_are_closed;
