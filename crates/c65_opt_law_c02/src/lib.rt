//! A law of the rules for the 65C02: wherever one of them matches, the code with the line that it makes follows the old code.
#![tactic(auto)]

mod laws;

pub use laws::processor_lines_are_followed;
