//! A law of the rules on arithmetic, comparisons and flags: lines in a row lead where they led before.
#![tactic(auto)]

mod laws;

pub use laws::arithmetic_is_kept;
