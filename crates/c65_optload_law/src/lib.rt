//! A law of the rules on loads, stores and transfers: lines in a row lead where they led before.
#![tactic(auto)]

mod laws;

pub use laws::loads_are_kept;
